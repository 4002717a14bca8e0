// What a name means in a class that is placed.

ghost use Rattle.std.specs.Prelude.{◌≡◌, true};
ghost use Rattle.std.specs.List.{list_all};
ghost use Rattle.abstract_syntax.specs.Classes.{SpecTree};
ghost use Rattle.class_meaning.specs.Classes.{classes as classes_of};
ghost use Rattle.class_meaning.specs.Found.{agreed, found};
ghost use Rattle.found_members.specs.Agreements.{agreed_at};
ghost use Rattle.found_members.specs.Rows.{is_placed, own_answer, looked, HaveIndexes, Rows};

use crate::inherited::Inherited;
use class_index::{MemberAt, OwnMembers};
use class_meaning::{Ask, Found};

/// What is found in a class, or where to look for it.
pub(crate) enum Step {
    Found(Found),
    /// In the one superclass, of this number.
    Above(usize),
}

/// What the class of a number itself has.
pub(crate) fn own_answer(own: &[OwnMembers], k: usize, ask: Ask) -> Option<MemberAt>
    ensures { result ≡ own_answer own.now ask k }
{
    match own.get(k) {
        Some(members) => members.answer(ask),
        None => None,
    }
}

/// What is found in a class without a look at its one superclass.
fn looked(own: &[OwnMembers], rows: &[Inherited], k: usize, ask: Ask) -> Step
    ensures { result ≡ looked own.now rows.now ask k }
{
    if own_answer(own, k, ask).is_some() {
        return Step::Found(Found::One(k));
    }
    match rows.get(k) {
        Some(Inherited::From(class)) => Step::Above(*class),
        Some(Inherited::Agreed(agreement)) => Step::Found(agreement.answer(ask)),
        Some(Inherited::Nothing) | Some(Inherited::Circle) | None => Step::Found(Found::Nothing),
    }
}

/// What a name means in a class that is placed. A path to a class without a superclass meets no class twice, so no more turns are
/// wanted than there are classes.
pub(crate) fn follow(own: &[OwnMembers], rows: &[Inherited], k: usize, ask: Ask) -> Found
    ensures { (spec : SpecTree) → HaveIndexes own.now (classes_of spec) → Rows rows.now spec → is_placed rows.now k ≡ true → result ≡ found spec ask k }
{
    let mut at = k;
    for _turn in 0..rows.len() {
        match looked(own, rows, at, ask) {
            Step::Found(found) => return found,
            Step::Above(class) => at = class,
        }
    }
    Found::Nothing
}

/// What two superclasses agree on.
fn agreed(a: Found, b: Found) -> Found
    ensures { result ≡ agreed a b }
{
    match (a, b) {
        (Found::Nothing, other) => other,
        (Found::Several, _) => Found::Several,
        (Found::One(k), Found::Nothing) => Found::One(k),
        (Found::One(_), Found::Several) => Found::Several,
        (Found::One(k), Found::One(other)) => {
            if k == other {
                Found::One(k)
            } else {
                Found::Several
            }
        }
    }
}

/// What these classes, all of them placed, agree on.
pub(crate) fn agreed_at(
    own: &[OwnMembers],
    rows: &[Inherited],
    classes: &[usize],
    ask: Ask,
) -> Found
    ensures { (spec : SpecTree) → HaveIndexes own.now (classes_of spec) → Rows rows.now spec → list_all (is_placed rows.now) classes.now ≡ true → result ≡ agreed_at spec classes.now ask }
{
    let mut answer = Found::Nothing;
    for class in classes {
        answer = agreed(answer, follow(own, rows, *class, ask));
    }
    answer
}
