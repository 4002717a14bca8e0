ghost use Rattle.std.specs.Prelude.{ℕ};
ghost use Rattle.vdm_kinds.specs.declared.name.Name.{Name};

/// A property of objects. No clause can speak of all properties, since they are predicates: a type that implements this stands for one.
pub trait ObjectProperty {
    /// What is said of an object, by its number and its class.
    ghost holds: { ℕ → Name → Type 0 };
}
