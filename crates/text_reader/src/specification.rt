// The specification's text.

ghost use Rattle.std.specs.Prelude.{◌≡◌, ◌≤◌, length, IfOk, OnOk, Ok, Err, Some, None};
ghost use Rattle.vdm_kinds.specs.NameList.{built_in_names};
ghost use Rattle.vdm_kinds.specs.declared.part.Part.TheVariants as part_of;
ghost use Rattle.vdm_kinds.specs.declared.spec_fault.SpecFault.{SpecFault};
ghost use Rattle.vdm_lexer.specs.Lexemes.{lexemes};
ghost use Rattle.token_reader.specs.Read.{KeepsNames};
ghost use Rattle.text_phases.specs.Phases.{checks_fault, parsed_spec, read_spec};
ghost use Rattle.vdm_tree.specs.ClassView.{spec_view};
ghost use Rattle.spec_check.specs.Fine.{checked_table};
ghost use Rattle.spec_check.specs.Below.spec_table.specs.Tables.{table_spec};

use class_grammar::spec_of_tokens;
use spec_check::handed::spec_table::table_of;
use spec_check::{Checked, check_spec};
use std::alloc::Global;
use vdm_kinds::{Halt, Part, SpecFault};
use vdm_lexer::lex;
use vdm_names::Names;
use vdm_tree::Spec;

/// The table of a specification's text of which nothing is refused, and its names behind the built-in ones; or the first fault: of
/// its lexemes, of its grammar, of the table of its classes, of the checks. Want of memory is told apart. Whatever comes, the names
/// that there were stay in front.
pub fn read_specification(
    alloc: Global,
    text: &[u8],
    names: &mut Names,
) -> Result<Checked, Halt<SpecFault>>
    requires { names.old ≡ built_in_names }
    ensures tree { IfOk result (λ checked. read_spec text.now ≡ Ok (names.new, table_spec (checked_table checked))) }
    ensures room { OnOk result (length names.new ≤ 4_194_308) }
    ensures refused { (fault : SpecFault) → result ≡ Err (Halt.Of fault) → read_spec text.now ≡ Err fault }
    ensures kept { KeepsNames names.old names.new }
{
    match parse_specification(alloc, text, names) {
        Ok(spec) => check(alloc, spec),
        Err(halt) => Err(halt),
    }
}

/// The table of a specification of which neither the table nor the checks refuse anything, or the first fault.
fn check(alloc: Global, spec: Spec) -> Result<Checked, Halt<SpecFault>>
    ensures spec { IfOk result (λ checked. table_spec (checked_table checked) ≡ spec_view spec) }
    ensures fine { OnOk result (checks_fault (spec_view spec) ≡ None) }
    ensures refused { (fault : SpecFault) → result ≡ Err (Halt.Of fault) → checks_fault (spec_view spec) ≡ Some fault }
{
    match table_of(alloc, spec) {
        Ok(table) => check_spec(alloc, table),
        Err(halt) => Err(halt),
    }
}

/// The tree of a specification's text, and its names behind the built-in ones; or the first fault of its lexemes and its grammar.
/// Want of memory is told apart. Whatever comes, the names that there were stay in front.
fn parse_specification(
    alloc: Global,
    text: &[u8],
    names: &mut Names,
) -> Result<Spec, Halt<SpecFault>>
    requires { names.old ≡ built_in_names }
    ensures tree { IfOk result (λ spec. parsed_spec text.now (lexemes part_of.Spec text.now) ≡ Ok (names.new, spec_view spec)) }
    ensures room { OnOk result (length names.new ≤ 4_194_308) }
    ensures refused { (fault : SpecFault) → result ≡ Err (Halt.Of fault) → parsed_spec text.now (lexemes part_of.Spec text.now) ≡ Err fault }
    ensures kept { KeepsNames names.old names.new }
{
    let found = lex(alloc, Part::Spec, text)?;
    spec_of_tokens(alloc, text, &found, names)
}
