// Items at positions, which are from 1.

ghost use Rattle.std.specs.Prelude.{◌≡◌, ◌-ℤ◌, pos, min, length};
ghost use Rattle.std.specs.Option.{option_copied};
ghost use Rattle.value_operators.specs.Outcomes.{Gives, sized as sized_outcome};
ghost use Rattle.value_operators.specs.Sequences.{head_of, tail_of, there, at_position, items_between, count_up_to, sequence_value, subsequence, look_up as look_up_in, between as between_of};

use std::alloc::Global;
use value_results::{push_copies, sized};
use vdm_kinds::{Halt, RunFault};
use vdm_values::{Node, Value};

/// The first item.
pub(crate) fn head(alloc: Global, items: &[Value]) -> Result<Value, Halt<RunFault>>
    ensures { Gives result (head_of items.now) }
{
    match items {
        [] => Err(Halt::Of(RunFault::EmptyOperand)),
        [first, ..] => sized(first.copy(alloc)?),
    }
}

/// All others.
pub(crate) fn tail(alloc: Global, items: &[Value]) -> Result<Value, Halt<RunFault>>
    ensures { Gives result (tail_of items.now) }
{
    match items {
        [] => Err(Halt::Of(RunFault::EmptyOperand)),
        [_, others @ ..] => of_copies(alloc, others),
    }
}

/// The sequence of copies of the items.
fn of_copies(alloc: Global, items: &[Value]) -> Result<Value, Halt<RunFault>>
    ensures { Gives result (sized_outcome (sequence_value items.now)) }
{
    let mut copies = Vec::new(alloc);
    push_copies(alloc, &mut copies, items)?;
    sized(Value::new(Node::Seq(copies)))
}

/// The item at a position.
pub(crate) fn look_up(alloc: Global, a: &Value, b: &Value) -> Result<Value, Halt<RunFault>>
    ensures { Gives result (look_up_in a.now b.now) }
{
    match (a.node(), b.node()) {
        (Node::Seq(items), Node::Int(position)) => at(alloc, items.as_slice(), *position),
        _ => Err(Halt::Of(RunFault::TypeFault)),
    }
}

fn at(alloc: Global, items: &[Value], position: i128) -> Result<Value, Halt<RunFault>>
    ensures { Gives result (there (at_position items.now position)) }
{
    match item_at(items, position) {
        Some(item) => sized(item.copy(alloc)?),
        None => Err(Halt::Of(RunFault::NotInDomain)),
    }
}

fn item_at(items: &[Value], position: i128) -> Option<&Value>
    ensures { option_copied result ≡ at_position items.now position }
{
    if position < 1 || position > items.len() as i128 {
        return None;
    }
    Some(&items[(position - 1) as usize])
}

/// The items from one position to another, of those that exist.
///
/// # Errors
///
/// `TypeFault` exactly where the first operand is no sequence or another one is no number; else `SizeLimit` exactly where the
/// result would have more than 200,000 nodes or depth above 500.
pub fn part(alloc: Global, s: &Value, from: &Value, to: &Value) -> Result<Value, Halt<RunFault>>
    ensures { Gives result (subsequence s.now from.now to.now) }
{
    match s.node() {
        Node::Seq(items) => part_between(alloc, items.as_slice(), from, to),
        _ => Err(Halt::Of(RunFault::TypeFault)),
    }
}

fn part_between(
    alloc: Global,
    items: &[Value],
    from: &Value,
    to: &Value,
) -> Result<Value, Halt<RunFault>>
    ensures { Gives result (between_of items.now from.now to.now) }
{
    match (from.node(), to.node()) {
        (Node::Int(from), Node::Int(to)) => of_copies(alloc, between(items, *from, *to)),
        _ => Err(Halt::Of(RunFault::TypeFault)),
    }
}

fn between(items: &[Value], from: i128, to: i128) -> &[Value]
    ensures { result.now ≡ items_between from to items.now }
{
    let front = &items[..places(items, to)];
    &front[places_before(front, from)..]
}

// How many positions there are up to a number.
fn places(items: &[Value], n: i128) -> usize
    ensures { result ≡ min (count_up_to n) (length items.now) }
{
    if n <= 0 {
        0
    } else if n >= items.len() as i128 {
        items.len()
    } else {
        n as usize
    }
}

// How many positions there are before a number.
fn places_before(items: &[Value], n: i128) -> usize
    ensures { result ≡ min (count_up_to (n -ℤ pos 1)) (length items.now) }
{
    if n <= 1 { 0 } else { places(items, n - 1) }
}
