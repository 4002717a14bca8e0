// What `pre` says of the arguments of a function, and its body.

ghost use Rattle.std.specs.Prelude.{◌≡◌};
ghost use Rattle.node_meaning.specs.Envs.{Locals};
ghost use Rattle.node_meaning.specs.Functions.{body_of, pre_decided, pre_of};
ghost use Rattle.node_meaning.specs.Needs.{Setting};
ghost use Rattle.eval_data.specs.Parts.{applying_of};
ghost use Rattle.eval_data.specs.Steps.{code_of};

use crate::parts::{body_here, part};
use eval_data::{Applying, Frame, Step, TruthUse, Use};
use vdm_kinds::RunFault;
use vdm_tree::Body;

/// Whether `pre` holds of the arguments, where there is one, and then the body.
pub(crate) fn pre_of<'t>(applying: Box<Applying<'t>>) -> Step<'t>
    ensures { (setting : Setting) (locals : Locals) → code_of setting locals result ≡ pre_of setting.spec (applying_of applying.entry.value) (applying_of applying.entry.value).function.pre locals }
{
    let function = applying.function;
    match &function.pre {
        None => body_of(applying),
        Some(pre) => {
            let here = body_here(&applying);
            let place = applying.place;
            let used = Use::Truth(TruthUse::Pre(applying));
            part(here, pre, Frame::With(used, place))
        }
    }
}

/// `pre` holds of the arguments of a function, or does not.
pub fn pre_decided<'t>(applying: Box<Applying<'t>>, holds: bool) -> Step<'t>
    ensures { (setting : Setting) (locals : Locals) → code_of setting locals result ≡ pre_decided setting.spec (applying_of applying.entry.value) holds locals }
{
    if holds {
        body_of(applying)
    } else {
        Step::Fail(RunFault::Pre, applying.place)
    }
}

// The body of a function. One that is not specified is undefined at the application.
fn body_of<'t>(applying: Box<Applying<'t>>) -> Step<'t>
    ensures { (setting : Setting) (locals : Locals) → code_of setting locals result ≡ body_of setting.spec (applying_of applying.entry.value) (applying_of applying.entry.value).function.body locals }
{
    let function = applying.function;
    match &function.body {
        Body::Written(body) => {
            let here = body_here(&applying);
            let place = applying.place;
            part(here, body, Frame::With(Use::Result(applying), place))
        }
        Body::NotYetSpecified => Step::Fail(RunFault::Undefined, applying.place),
        Body::SubclassResponsibility => Step::Fail(RunFault::Undefined, applying.place),
    }
}
