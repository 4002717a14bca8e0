// What was written to a variable.

ghost use Rattle.std.specs.Prelude.{◌≡◌, option_copied};
ghost use Rattle.run_journal.specs.Parts.{object_part};
ghost use Rattle.vdm_legal.specs.State.{is_same_variable, last_written, written_by, written_in};

use run_journal::{Deed, Entry, Write};
use vdm_kinds::VarRef;
use vdm_values::Value;

/// The value that the last of the writes on the object gave the variable.
pub(crate) fn last_written(entries: &[Entry], object: u32, var: VarRef) -> Option<&Value>
    ensures { option_copied result ≡ last_written var (object_part object entries.now) }
{
    let mut before = entries;
    while let Some((last, front)) = before.split_last() {
        before = front;
        if last.object == object {
            if let Some(value) = written_by(&last.deed, var) {
                return Some(value);
            }
        }
    }
    None
}

/// What the deed writes to the variable: a write that was refused writes nothing.
fn written_by(deed: &Deed, var: VarRef) -> Option<&Value>
    ensures { option_copied result ≡ written_by var deed.now }
{
    match deed {
        Deed::Write {
            writes,
            refused: false,
        } => written_in(writes.as_slice(), var),
        _ => None,
    }
}

/// The value in the last pair of the variable.
pub(crate) fn written_in(pairs: &[Write], var: VarRef) -> Option<&Value>
    ensures { option_copied result ≡ written_in var pairs.now }
{
    let mut before = pairs;
    while let Some((pair, front)) = before.split_last() {
        before = front;
        if is_same_variable(var, pair.var) {
            return Some(&pair.value);
        }
    }
    None
}

/// Whether both are one variable.
pub(crate) fn is_same_variable(var: VarRef, other: VarRef) -> bool
    ensures { result ≡ is_same_variable var other }
{
    var.class.0 == other.class.0 && var.name.0 == other.name.0
}
