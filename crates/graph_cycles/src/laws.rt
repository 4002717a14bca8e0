// Laws of graphs. Each is the contract of a function that does nothing.

ghost use Rattle.std.specs.Prelude.{◌≡◌, ℕ, ◌<◌, ◌≤◌, ◌&&◌, List, length, true, false, count_by, nat_eq, nat_lt, if◌then◌else◌};
ghost use Rattle.graph_cycles.specs.Graphs.{Graph, InRange, IsOrder, IsReached, is_on_cycle, leads, leads_to_no_cycle};

/// As many steps as there are nodes are enough: what is led to in more is led to in these.
pub fn steps_are_enough()
    ensures { (g : Graph) (a b steps : ℕ) → InRange g → leads steps g a b ≡ true → leads (length g) g a b ≡ true }
{}

/// A node that settles is on no cycle, and leads to none, in however many steps.
pub fn settled_nodes()
    ensures itself { (g : Graph) (a : ℕ) → leads_to_no_cycle g a ≡ true → is_on_cycle g a ≡ false }
    ensures beyond { (g : Graph) (a b steps : ℕ) → leads_to_no_cycle g a ≡ true → leads steps g a b ≡ true → is_on_cycle g b ≡ false }
{}

/// A node that does not settle is on a cycle or leads to one: where none does, and so where no node is on a cycle, it settles.
pub fn unsettled_nodes()
    ensures each { (g : Graph) (a : ℕ) → InRange g → a < length g
        → ((b : ℕ) → b < length g → IsReached g a b → is_on_cycle g b ≡ false) → leads_to_no_cycle g a ≡ true }
    ensures all { (g : Graph) → InRange g
        → ((b : ℕ) → b < length g → is_on_cycle g b ≡ false)
        → (a : ℕ) → a < length g → leads_to_no_cycle g a ≡ true }
{}

/// In an order each node stands once; and all nodes of a graph, where all settle.
pub fn nodes_in_order()
    ensures once { (g : Graph) (nodes : List ℕ) → IsOrder g nodes → (a : ℕ)
        → count_by (nat_eq a) nodes ≡ (if nat_lt a (length g) && leads_to_no_cycle g a then 1 else 0) }
    ensures most { (g : Graph) (nodes : List ℕ) → IsOrder g nodes → length nodes ≤ length g }
    ensures all { (g : Graph) (nodes : List ℕ) → IsOrder g nodes
        → ((a : ℕ) → a < length g → leads_to_no_cycle g a ≡ true) → length nodes ≡ length g }
{}
