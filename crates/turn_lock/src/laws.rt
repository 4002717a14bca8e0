//! What holds of a lock at any moment, whatever its threads do: laws over each state that keeps the rule.
ghost use Rattle.std.specs.Prelude.{◌≡◌, ℕ, Option};
ghost use lib.ListN.{get_elem?};
ghost use mathlib.Core.Option.{some};
ghost use Rattle.atomic_table.specs.Table.{State};
ghost use Rattle.turn_lock.specs.declared.view.View.{View};
ghost use Rattle.turn_lock.specs.declared.view.Stage.TheVariants.{Served};
ghost use Rattle.turn_lock.specs.Passes.{lock_passes, first_story};
ghost use Rattle.turn_lock.specs.Rule.{IsKept};
ghost use Rattle.turn_lock.specs.Moments.{IsFree, HasEveryNote, KnowsABeginning, HasOwnNumber};

use crate::lock::TurnLock;
use crate::storied::Storied;

/// While no turn is taken, the value is in its slot, and its list is the one at `new` and then all notes since, in order.
pub fn free_value_has_every_note<V: Storied>(lock: &TurnLock<V>)
    ensures { (s : State (Option V) (View V.Note)) → IsKept V.story V.adds_up (lock_passes lock.now) (first_story V.story lock.now) s → IsFree s → HasEveryNote V.story V.adds_up (first_story V.story lock.now) s }
{}

/// At most one turn is taken, by the pass that has the number which is served.
pub fn one_turn_at_a_time<V: Storied>(lock: &TurnLock<V>)
    ensures { (s : State (Option V) (View V.Note)) → IsKept V.story V.adds_up (lock_passes lock.now) (first_story V.story lock.now) s → HasOwnNumber s }
{}

/// What a pass saw is a beginning of the list of all notes, and its own notes stand in that list, at any moment.
pub fn each_pass_knows_a_beginning<V: Storied>(lock: &TurnLock<V>)
    ensures { (s : State (Option V) (View V.Note)) → IsKept V.story V.adds_up (lock_passes lock.now) (first_story V.story lock.now) s → KnowsABeginning (first_story V.story lock.now) s }
{}
