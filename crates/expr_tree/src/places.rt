// Where faults of nodes stand.

ghost use Rattle.std.specs.Prelude.{◌≡◌};
ghost use Rattle.abstract_syntax.specs.Expressions.{expr_place, pattern_place};
ghost use Rattle.expr_tree.specs.View.{view_of, pattern_view};

use crate::expr::Expr;
use crate::pattern::Pattern;
use vdm_kinds::Place;

impl Expr {
    /// Where a fault of the expression stands.
    pub fn place(&self) -> Place
        ensures { result ≡ expr_place (view_of self.now) }
    {
        match self {
            Expr::Literal(_, place)
            | Expr::Name(_, place)
            | Expr::Qualified(_, _, _, place)
            | Expr::Old(_, place)
            | Expr::SelfObject(place)
            | Expr::Time(place)
            | Expr::Undefined(place)
            | Expr::Result(place)
            | Expr::Bracketed(_, place)
            | Expr::Prefix(_, _, place)
            | Expr::Infix(_, _, _, place)
            | Expr::SetEnumeration(_, place)
            | Expr::SetRange(_, _, place)
            | Expr::SetComprehension(_, _, _, place)
            | Expr::EmptyMap(place)
            | Expr::MapEnumeration(_, place)
            | Expr::MapComprehension(_, _, _, _, place)
            | Expr::SequenceEnumeration(_, place)
            | Expr::SequenceComprehension(_, _, _, _, place)
            | Expr::MakeTuple(_, place)
            | Expr::MakeToken(_, place)
            | Expr::MakeRecord(_, _, place)
            | Expr::ModifyRecord(_, _, place)
            | Expr::IsOfType(_, _, place)
            | Expr::IsOfNamed(_, _, place)
            | Expr::IsOfBasic(_, _, place)
            | Expr::IsOfClass(_, _, _, place)
            | Expr::IsOfBaseClass(_, _, _, place)
            | Expr::SameClass(_, _, place)
            | Expr::SameBaseClass(_, _, place)
            | Expr::New(_, _, _, place)
            | Expr::History(_, _, place)
            | Expr::Apply(_, _, place)
            | Expr::Subsequence(_, _, _, place)
            | Expr::Select(_, _, _, place)
            | Expr::SelectOfClass(_, _, _, _, _, place)
            | Expr::SelectPart(_, _, place)
            | Expr::LetIn(_, _, place)
            | Expr::LetBe(_, _, _, place)
            | Expr::DefIn(_, _, _, place)
            | Expr::IfElse(_, _, _, _, place)
            | Expr::Cases(_, _, _, place)
            | Expr::ForAll(_, _, place)
            | Expr::Exists(_, _, place)
            | Expr::ExistsOne(_, _, place)
            | Expr::Iota(_, _, place) => *place,
        }
    }
}

impl Pattern {
    /// Where a fault of the pattern stands.
    pub fn place(&self) -> Place
        ensures { result ≡ pattern_place (pattern_view self.now) }
    {
        match self {
            Pattern::AnyValue(place)
            | Pattern::Bound(_, place)
            | Pattern::Literal(_, place)
            | Pattern::EqualTo(_, place)
            | Pattern::Set(_, place)
            | Pattern::Sequence(_, place)
            | Pattern::Map(_, place)
            | Pattern::EmptyMap(place)
            | Pattern::Tuple(_, place)
            | Pattern::Record(_, _, place)
            | Pattern::Concatenation(_, place) => *place,
        }
    }
}
