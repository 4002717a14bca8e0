//! The steps of one pass, on the words of its lock and on the slot.
ghost use Rattle.std.specs.Prelude.{◌≡◌, ℕ, ◌+◌, ◌*◌, ◌^◌, ◌<◌, List, [], ◌∷◌, ◌++◌, length, MatchBool, Some, None};
ghost use Rattle.turn_lock.specs.declared.view.Stage.TheVariants.{Idle, Waiting, Served};
ghost use Rattle.turn_lock.specs.Views.{AllBelow};
ghost use Rattle.turn_lock.specs.Steps.{Enters};
ghost use Rattle.turn_lock.specs.Boards.{IsBoard};

use crate::rule::{Adds, Draw, HOME, Look, NEXT, NOTES, NOW, Note, Place, Serve, Top};
use crate::storied::Storied;

/// Draws the next turn number.
pub(crate) fn draw_number<V: Storied>(top: &Top<V>, seat: &mut Place<V>) -> u64
    requires board { (seat.old.table_id ≡ top.now.table_id) × IsBoard top.now.table_id }
    requires idle { (seat.old.me.0.stage ≡ Idle) × (seat.old.me.1 ≡ []) }
    requires draws { seat.old.me.0.draws < 2 ^ 40 * seat.old.me.0.passes }
    ensures board { seat.new.table_id ≡ seat.old.table_id }
    ensures drawn { seat.new.me ≡ (record seat.old.me.0 { stage = Waiting result; draws = seat.old.me.0.draws + 1 }, []) }
{
    top.fetch_add::<Draw>(seat, NEXT, 1)
}

/// Looks whether the number is served, and takes the slot where it is.
pub(crate) fn is_served<V: Storied>(top: &Top<V>, seat: &mut Place<V>, number: u64) -> bool
    requires board { (seat.old.table_id ≡ top.now.table_id) × IsBoard top.now.table_id }
    requires waits { (seat.old.me.0.stage ≡ Waiting number) × (seat.old.me.1 ≡ []) }
    requires alone { 0 < seat.old.me.0.passes }
    ensures board { seat.new.table_id ≡ seat.old.table_id }
    ensures told { MatchBool result (Enters V.story V.adds_up number seat.old.me seat.new.me) (seat.new.me ≡ seat.old.me) }
{
    top.load::<Look>(seat, NOW) == number
}

/// Takes the value out of the slot.
pub(crate) fn take_out<V: Storied>(top: &Top<V>, seat: &mut Place<V>) -> V
    requires board { (seat.old.table_id ≡ top.now.table_id) × IsBoard top.now.table_id }
    requires slot { (value : V) × (seat.old.me.1 ≡ (0, Some value) ∷ []) }
    ensures board { seat.new.table_id ≡ seat.old.table_id }
    ensures taken { (seat.old.me.1 ≡ (0, Some result) ∷ []) × (seat.new.me ≡ (seat.old.me.0, (0, None) ∷ [])) }
{
    let Some(value) = top.exchange(seat, HOME, None) else {
        unreachable!()
    };
    value
}

/// Puts the value back into the slot.
pub(crate) fn put_home<V: Storied>(top: &Top<V>, seat: &mut Place<V>, value: V)
    requires board { (seat.old.table_id ≡ top.now.table_id) × IsBoard top.now.table_id }
    requires slot { seat.old.me.1 ≡ (0, None) ∷ [] }
    ensures board { seat.new.table_id ≡ seat.old.table_id }
    ensures home { seat.new.me ≡ (seat.old.me.0, (0, Some value) ∷ []) }
{
    let found = top.exchange(seat, HOME, Some(value));
    let None = found else { unreachable!() };
}

/// Counts one note more. The entry that it adds is picked by the caller.
pub(crate) fn count_note<V: Storied, J: Adds<V::Note>>(
    top: &Top<V>,
    seat: &mut Place<V>,
    _value: &V,
)
    requires board { (seat.old.table_id ≡ top.now.table_id) × IsBoard top.now.table_id }
    requires turn { (x : ℕ) × (seat.old.me.0.stage ≡ Served x) }
    requires alone { 0 < seat.old.me.0.passes }
    requires entry { (e : V.Note) × (J.added ≡ e ∷ []) }
    requires room { length seat.old.me.0.seen < 2 ^ 63 }
    ensures board { seat.new.table_id ≡ seat.old.table_id }
    ensures noted { (e : V.Note) → J.added ≡ e ∷ [] → (k : ℕ) × (length seat.old.me.0.seen ≡ length seat.old.me.0.base + k) × AllBelow k seat.old.me.0.own × (seat.new.me ≡ (record seat.old.me.0 { seen = seat.old.me.0.seen ++ e ∷ []; own = seat.old.me.0.own ++ (k, e) ∷ [] }, seat.old.me.1)) }
{
    top.fetch_add::<Note<J>>(seat, NOTES, 1);
}

/// Has the next number served. The value lies in the slot again.
pub(crate) fn serve_next<V: Storied>(top: &Top<V>, seat: &mut Place<V>)
    requires board { (seat.old.table_id ≡ top.now.table_id) × IsBoard top.now.table_id }
    requires turn { (x : ℕ) × (seat.old.me.0.stage ≡ Served x) }
    requires home { (value : V) × (seat.old.me.1 ≡ (0, Some value) ∷ []) × (V.story value ≡ seat.old.me.0.seen) × V.adds_up value }
    ensures board { seat.new.table_id ≡ seat.old.table_id }
    ensures served { seat.new.me ≡ (record seat.old.me.0 { stage = Idle }, []) }
{
    top.fetch_add::<Serve>(seat, NOW, 1);
}
