// Which alternatives are of one kind.

ghost use Rattle.std.specs.Prelude.{◌≡◌, ◌&&◌, Bool, option_map, is_some};
ghost use Rattle.std.specs.Borrow.{Bor};
ghost use Rattle.form_meaning.specs.Forms.{is_same_kind, same_kind_in};
ghost use Rattle.type_forms.specs.declared.form.Alt.{Alt};
ghost use Rattle.type_forms.specs.Plain.{is_plain, are_known};
ghost use Rattle.type_forms.specs.Tree.{alt_of, alt_trees};

use crate::form::Alt;

/// Whether the two are of one kind: quotes and types of one name, tuples of one length, objects of one class.
#[tactic(auto, using(crate::proofs::Lists::count_of_forms))]
pub(crate) fn is_same_kind(alt: &Alt, other: &Alt) -> bool
    ensures { result ≡ is_same_kind (alt_of alt.now) (alt_of other.now) }
{
    match (alt, other) {
        (Alt::Nil, Alt::Nil) => true,
        (Alt::Bool, Alt::Bool) => true,
        (Alt::Number, Alt::Number) => true,
        (Alt::Character, Alt::Character) => true,
        (Alt::Quote(a), Alt::Quote(b)) => a.0 == b.0,
        (Alt::Token, Alt::Token) => true,
        (Alt::Tuple(a), Alt::Tuple(b)) => a.len() == b.len(),
        (Alt::Record { class: a, name: m }, Alt::Record { class: b, name: n }) => a.0 == b.0
            && m.0 == n.0,
        (Alt::Seq(_), Alt::Seq(_)) => true,
        (Alt::Set(_), Alt::Set(_)) => true,
        (Alt::Map(_, _), Alt::Map(_, _)) => true,
        (Alt::Object(a), Alt::Object(b)) => a.0 == b.0,
        (Alt::Named { class: a, name: m }, Alt::Named { class: b, name: n }) => a.0 == b.0
            && m.0 == n.0,
        _ => false,
    }
}

/// The first of the kind among others.
pub(crate) fn same_kind_in<'a>(alt: &Alt, others: &'a [Alt]) -> Option<&'a Alt>
    ensures { option_map (λ (a : Bor Alt). alt_of a.now) result ≡ same_kind_in (alt_of alt.now) (alt_trees others.now) }
{
    for other in others {
        if is_same_kind(alt, other) {
            return Some(other);
        }
    }
    None
}

/// Whether one of the kind is among others.
pub(crate) fn is_known(alt: &Alt, others: &[Alt]) -> bool
    ensures { result ≡ is_some (same_kind_in (alt_of alt.now) (alt_trees others.now)) }
{
    match same_kind_in(alt, others) {
        Some(_) => true,
        None => false,
    }
}

/// Whether the kind has no parts.
pub(crate) fn is_plain(alt: &Alt) -> bool
    ensures { result ≡ is_plain (alt_of alt.now) }
{
    match alt {
        Alt::Tuple(_) | Alt::Seq(_) | Alt::Set(_) | Alt::Map(_, _) => false,
        _ => true,
    }
}

/// Whether the others are kinds without parts that are known.
pub(crate) fn are_known(alts: &[Alt], others: &[Alt]) -> bool
    ensures { result ≡ are_known (alt_trees alts.now) (alt_trees others.now) }
{
    for other in others {
        if !is_plainly_known(alts, other) {
            return false;
        }
    }
    true
}

fn is_plainly_known(alts: &[Alt], other: &Alt) -> bool
    ensures { result ≡ (is_plain (alt_of other.now) && is_some (same_kind_in (alt_of other.now) (alt_trees alts.now))) }
{
    is_plain(other) && is_known(other, alts)
}
