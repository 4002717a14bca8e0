// Names and numbers where forms go on.

ghost use Rattle.std.specs.Prelude.{◌≡◌, [], ◌∷◌, ◌++◌, List, IfOk};
ghost use Rattle.grammar_trees.specs.Frames.{awaits, comma_then, enclosed, counter_next};
ghost use Rattle.grammar_trees.specs.Machine.{in_mode, awaited_name, awaited_number, opens_named, name_at};
ghost use Rattle.tree_frames.specs.declared.frame.Frame.{Frame as FrameView};
ghost use Rattle.tree_frames.specs.Views.{enclosed_view, header_view, type_name_for_view, stack_view, state_view};

use crate::nodes::read;
use expr_tree::Expr;
use std::alloc::Global;
use tree_frames::{Enclosed, Frame, Header, Listed, Mode, PatternsFor, TypeNameFor};
use tree_nodes::awaiting;
use vdm_kinds::{Counter, Name, NameAt, OutOfMemory, Place, TypeName};

/// A name where a form goes on.
pub fn awaited_name(
    alloc: Global,
    header: Header,
    name: Name,
    place: Place,
) -> Result<Option<Mode>, OutOfMemory>
    ensures { IfOk result (λ next. (frames : List FrameView) → state_view next frames ≡ awaited_name (header_view header) name place (stack_view frames)) }
{
    match header {
        Header::TypeRest(purpose, class, at) => {
            let type_name = TypeName {
                class: Some(class),
                name,
                name_place: place,
            };
            Ok(awaiting(opens_named(alloc, purpose, type_name, at)))
        }
        Header::QualifiedRest(class, at) => read(alloc, Expr::qualified(class, name, place, at)),
        Header::MemberOf(target, at) => read(alloc, Expr::select(target, name, place, at)),
        Header::MemberRest(target, class, class_place, at) => {
            let tree = Expr::select_of_class(target, class, class_place, name, place, at);
            read(alloc, tree)
        }
        Header::NewName(at) => {
            let listed = Listed::NewOf(name, place);
            let frame = Frame::Items(listed, Vec::new(alloc), at);
            Ok(awaiting(Header::Opens(frame)))
        }
        Header::CounterName(counter, names, at) => counted(counter, names, name, place, at),
        Header::ClassName(at) => Ok(class_then(Enclosed::ClassTest(name, place), at)),
        Header::BaseClassName(at) => Ok(class_then(Enclosed::BaseClassTest(name, place), at)),
        Header::FieldName(target, fields, at) => {
            Ok(awaiting(Header::FieldArrow(target, fields, name, place, at)))
        }
        header => {
            header.discard();
            Ok(None)
        }
    }
}

/// A class was named that an object is asked for, behind a `,`.
fn class_then(purpose: Enclosed, place: Place) -> Option<Mode>
    ensures { (frames : List FrameView) → state_view result frames ≡ in_mode (awaits (comma_then (enclosed (enclosed_view purpose) place))) (stack_view frames) }
{
    awaiting(Header::CommaThen(Frame::Enclosed(purpose, place)))
}

/// A name that is counted.
fn counted(
    counter: Counter,
    names: Vec<NameAt>,
    name: Name,
    name_place: Place,
    place: Place,
) -> Result<Option<Mode>, OutOfMemory>
    ensures { IfOk result (λ next. (frames : List FrameView) → state_view next frames ≡ in_mode (awaits (counter_next counter (names.items ++ name_at name name_place ∷ []) place)) (stack_view frames)) }
{
    let mut names = names;
    names.push(NameAt {
        name,
        place: name_place,
    })?;
    Ok(awaiting(Header::CounterNext(counter, names, place)))
}

/// The form of a type whose class was named, before its `(`.
fn opens_named(alloc: Global, purpose: TypeNameFor, type_name: TypeName, place: Place) -> Header
    ensures { header_view result ≡ opens_named (type_name_for_view purpose) type_name place }
{
    match purpose {
        TypeNameFor::Made => {
            let listed = Listed::RecordOf(type_name);
            Header::Opens(Frame::Items(listed, Vec::new(alloc), place))
        }
        TypeNameFor::Asked => Header::Opens(Frame::Enclosed(Enclosed::NamedTest(type_name), place)),
        TypeNameFor::MadePattern => {
            let listed = PatternsFor::RecordLike(type_name);
            Header::OpensPattern(Frame::PatternItems(listed, Vec::new(alloc), place))
        }
    }
}

/// A number where a form goes on: of a part, behind `.#`.
pub fn awaited_number(
    alloc: Global,
    header: Header,
    number: i128,
) -> Result<Option<Mode>, OutOfMemory>
    ensures { IfOk result (λ next. (frames : List FrameView) → state_view next frames ≡ awaited_number (header_view header) number (stack_view frames)) }
{
    match header {
        Header::PartOf(target, place) => read(alloc, Expr::select_part(target, number, place)),
        header => {
            header.discard();
            Ok(None)
        }
    }
}
