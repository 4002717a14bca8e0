// How often an operation was asked for, began and ended on an object, how often the clock was moved on, and whether the object is there.

ghost use Rattle.std.specs.Prelude.{◌≡◌, ◌<◌, ◌↔◌, [], length, IsTrue};
ghost use Rattle.run_journal.specs.Parts.{object_part};
ghost use Rattle.vdm_legal.specs.State.{activations, count_of, finishes, is_activation, is_finish, is_request, is_tick, requests, ticks};
ghost use Rattle.plain_state.specs.Phases.{tells};

use run_journal::{Deed, Entry};
use vdm_kinds::Name;

/// What an entry tells of a call.
#[derive(Clone, Copy)]
enum Phase {
    Requested,
    Activated,
    Finished,
}

/// Whether none of the entries stands on the object.
pub(crate) fn is_untouched(entries: &[Entry], object: u32) -> bool
    ensures { IsTrue result ↔ (object_part object entries.now ≡ []) }
{
    count_on(entries, object) == 0
}

/// How many of the entries stand on the object.
fn count_on(entries: &[Entry], object: u32) -> usize
    ensures { result ≡ length (object_part object entries.now) }
{
    entries
        .iter()
        .filter(|entry| entry.object == object)
        .count()
}

/// Whether an operation of the name waits on the object: more of them were asked for than began.
pub(crate) fn is_waiting(entries: &[Entry], object: u32, name: Name) -> bool
    ensures { IsTrue result ↔ (activations name (object_part object entries.now) < requests name (object_part object entries.now)) }
{
    let begun = calls_on(entries, object, name, Phase::Activated);
    begun < calls_on(entries, object, name, Phase::Requested)
}

/// Whether an operation of the name is active on the object: more of them began than ended.
pub(crate) fn is_active(entries: &[Entry], object: u32, name: Name) -> bool
    ensures { IsTrue result ↔ (finishes name (object_part object entries.now) < activations name (object_part object entries.now)) }
{
    let ended = calls_on(entries, object, name, Phase::Finished);
    ended < calls_on(entries, object, name, Phase::Activated)
}

/// How many of the entries on the object tell this of a call of an operation of the name.
fn calls_on(entries: &[Entry], object: u32, name: Name, phase: Phase) -> usize
    ensures { result ≡ count_of (tells phase name) (object_part object entries.now) }
{
    let mut count = 0;
    for entry in entries {
        if entry.object == object && tells(phase, name, &entry.deed) {
            count += 1;
        }
    }
    count
}

/// Whether the deed tells this of a call of an operation of the name.
fn tells(phase: Phase, name: Name, deed: &Deed) -> bool
    ensures { result ≡ tells phase name deed.now }
{
    match phase {
        Phase::Requested => is_request(name, deed),
        Phase::Activated => is_activation(name, deed),
        Phase::Finished => is_finish(name, deed),
    }
}

/// Whether the deed asks for an operation of the name.
fn is_request(name: Name, deed: &Deed) -> bool
    ensures { result ≡ is_request name deed.now }
{
    match deed {
        Deed::Req { op } => name.0 == op.name.0,
        _ => false,
    }
}

/// Whether the deed begins an operation of the name.
fn is_activation(name: Name, deed: &Deed) -> bool
    ensures { result ≡ is_activation name deed.now }
{
    match deed {
        Deed::Act { op } => name.0 == op.name.0,
        _ => false,
    }
}

/// Whether the deed ends an operation of the name.
fn is_finish(name: Name, deed: &Deed) -> bool
    ensures { result ≡ is_finish name deed.now }
{
    match deed {
        Deed::Fin { op } => name.0 == op.name.0,
        _ => false,
    }
}

/// How often the clock was moved on, by the entries on the object.
pub(crate) fn ticks_on(entries: &[Entry], object: u32) -> u64
    ensures { result ≡ ticks (object_part object entries.now) }
{
    let mut count = 0;
    for entry in entries {
        if entry.object == object && is_tick(&entry.deed) {
            count += 1;
        }
    }
    count
}

/// Whether the deed moves the clock on.
fn is_tick(deed: &Deed) -> bool
    ensures { result ≡ is_tick deed.now }
{
    matches!(deed, Deed::Tick)
}
