// The texts of operations and variables.

ghost use Rattle.std.specs.Prelude.{◌≡◌, ◌++◌, OnErr, OnOk};
ghost use Rattle.std.specs.String.{string_bytes};
ghost use Rattle.report_texts.specs.Names.{operation_text, variable_text};

use std::alloc::Global;
use std::fmt::Write;
use value_text::name_text;
use vdm_kinds::{OpRef, OutOfMemory, VarRef};
use vdm_names::Names;

/// Appends the text of an operation, as ``C`op/1``. A refusal leaves the string as before.
pub fn push_operation(
    alloc: Global,
    text: &mut String,
    op: OpRef,
    names: &Names,
) -> Result<(), OutOfMemory>
    ensures ok { OnOk result (string_bytes text.new ≡ string_bytes text.old ++ operation_text names.now op) }
    ensures err { OnErr result (string_bytes text.new ≡ string_bytes text.old) }
{
    let class = name_text(names, op.class);
    let name = name_text(names, op.name);
    let arity = op.arity;
    let operation = format!(in alloc; "{class}`{name}/{arity}")?;
    text.push_str(operation.as_str())?;
    Ok(())
}

/// Appends the text of a variable, as ``C`x``. A refusal may leave a part of it there.
pub(crate) fn push_variable(
    text: &mut String,
    var: VarRef,
    names: &Names,
) -> Result<(), OutOfMemory>
    ensures { OnOk result (string_bytes text.new ≡ string_bytes text.old ++ variable_text names.now var) }
{
    let class = name_text(names, var.class);
    let name = name_text(names, var.name);
    write!(text, "{class}`{name}")?;
    Ok(())
}
