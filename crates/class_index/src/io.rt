// The class `IO`, which is there before any text.

ghost use Rattle.std.specs.Prelude.{◌≡◌, IfOk};
ghost use Rattle.vdm_tree.specs.ClassView.{class_view, operation_view};
ghost use Rattle.class_meaning.specs.Classes.{io_class, printing, nowhere};

use std::alloc::Global;
use type_tree::TypeExpr;
use vdm_kinds::{Access, BasicType, Level, Name, OutOfMemory, Part, Place};
use vdm_tree::{Block, Body, ClassDef, OpDef, Pattern, Stmt};

/// The place of all of it, since it stands in no text.
fn nowhere() -> Place
    ensures { result ≡ nowhere }
{
    Place {
        part: Part::Spec,
        line: 1,
        column: 1,
    }
}

/// The operation of the name, whose body never runs.
fn printing(alloc: Global, name: Name) -> Result<OpDef, OutOfMemory>
    ensures { IfOk result (λ operation. operation_view operation ≡ printing name) }
{
    let parameters = vec![in alloc; TypeExpr::basic(BasicType::Token, nowhere())]?;
    let patterns = vec![in alloc; Pattern::AnyValue(nowhere())]?;
    let body = Box::new(alloc, Stmt::Skip(nowhere()))?;
    Ok(OpDef {
        access: Access {
            is_static: true,
            level: Level::Public,
        },
        name,
        name_place: nowhere(),
        parameters,
        result_type: None,
        patterns,
        body: Body::Written(body),
        pre: None,
        post: None,
        place: nowhere(),
    })
}

/// The class of the two operations.
pub(crate) fn io_class(alloc: Global) -> Result<ClassDef, OutOfMemory>
    ensures { IfOk result (λ class. class_view class ≡ io_class) }
{
    let print = printing(alloc, Name(1))?;
    let println = printing(alloc, Name(2))?;
    let operations = vec![in alloc; print, println]?;
    Ok(ClassDef {
        name: Name::IO,
        name_place: nowhere(),
        superclasses: Vec::new(alloc),
        blocks: vec![in alloc; Block::Operations(operations, nowhere())]?,
        place: nowhere(),
    })
}
