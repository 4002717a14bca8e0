// What readings come to where none goes on.

ghost use Rattle.std.specs.Prelude.{◌≡◌, map, filter, if◌then◌else◌};
ghost use Rattle.std.specs.List.{list_any};
ghost use Rattle.stmt_fronts.specs.declared.ending.Ending.{Ending as EndingOf};
ghost use Rattle.stmt_fronts.specs.Fronts as fronts;

use grammar_fronts::{Front, Reach};
use stmt_fronts::Ending;
use vdm_kinds::Place;

/// Whether nothing more has to come in one of them.
fn one_is_whole(endings: &[Ending]) -> bool
    ensures { result ≡ fronts.one_is_whole endings.now }
{
    endings.iter().any(|ending| ending.whole)
}

/// Whether the word is of a form that is left out, in one of them.
fn one_is_left_out(endings: &[Ending]) -> bool
    ensures { result ≡ list_any (λ (ending : EndingOf). ending.left_out) endings.now }
{
    endings.iter().any(|ending| ending.left_out)
}

/// The first of the places where they are too deep, where each is that counts: each that is whole, or else all.
fn deep_in_best(endings: &[Ending], whole: bool) -> Option<Place>
    ensures { result ≡ fronts.deep_in_all (map (λ (ending : EndingOf). ending.deep)
        (if whole then filter (λ (ending : EndingOf). ending.whole) endings.now else endings.now)) }
{
    let mut first = None;
    for ending in endings {
        if whole && !ending.whole {
            continue;
        }
        if ending.deep.is_none() {
            return None;
        }
        if first.is_none() {
            first = ending.deep;
        }
    }
    first
}

/// What is found behind so many tokens where no reading goes on.
pub(crate) fn stopped(count: usize, endings: &[Ending]) -> Front
    ensures { result ≡ fronts.stopped count endings.now }
{
    let whole = one_is_whole(endings);
    if let Some(place) = deep_in_best(endings, whole) {
        return Front::TooDeep(place);
    }
    Front::Reaches(Reach {
        words: count,
        whole,
        left_out: one_is_left_out(endings),
    })
}
