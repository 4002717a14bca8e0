// Whole specifications.

ghost use Rattle.std.specs.Prelude.{◌≡◌, Some, None, Err, IfOk, option_map};
ghost use Rattle.vdm_kinds.specs.declared.halt.Halt.{Halt};
ghost use Rattle.grammar_tokens.specs.View.{token_views};
ghost use Rattle.stmt_reading.specs.Classes.{spec_of};
ghost use Rattle.vdm_tree.specs.ClassView.{spec_view};
ghost use Rattle.leaf_reader.specs.declared.no_tree.NoTree.{NoTree};

use crate::classes::read_classes;
use grammar_tokens::Token;
use leaf_reader::{NO_TREE, NoTree, Source};
use std::alloc::Global;
use vdm_kinds::{Halt, OutOfMemory};
use vdm_tree::Spec;

/// The specification that the tokens are, from the first to the last; none where they are none.
pub fn build_spec(alloc: Global, tokens: Vec<Token>) -> Result<Option<Spec>, OutOfMemory>
    ensures { IfOk result (λ built. option_map spec_view built ≡ spec_of (token_views tokens.items)) }
{
    let mut source = Source::new(tokens);
    match whole_spec(alloc, &mut source) {
        Ok(spec) => Ok(Some(spec)),
        Err(Halt::Of(NoTree)) => Ok(None),
        Err(Halt::OutOfMemory) => Err(OutOfMemory),
    }
}

/// The specification that all tokens of the source are.
fn whole_spec(alloc: Global, source: &mut Source) -> Result<Spec, Halt<NoTree>>
    ensures tree { IfOk result (λ spec. spec_of source.old ≡ Some (spec_view spec)) }
    ensures refused { (fault : NoTree) → result ≡ Err (Halt.Of fault) → spec_of source.old ≡ None }
{
    let turns = source.len() + 1;
    let classes = read_classes(alloc, turns, source)?;
    match source.take() {
        None => Ok(Spec { classes }),
        Some(_) => Err(NO_TREE),
    }
}
