// Where the parts of an operation stand.

ghost use Rattle.std.specs.Prelude.{◌≡◌};
ghost use Rattle.stmt_meaning.specs.Calling.{calling_here as here_plan};
ghost use Rattle.node_meaning.specs.Envs.{inside as inside_of, static_inside as static_of};
ghost use Rattle.eval_data.specs.Parts.{here_of};
ghost use Rattle.step_data.specs.Callings.{calling_of};

use eval_data::{Here, Nest};
use step_data::Calling;
use vdm_kinds::Name;

/// Where the body, `pre` and `post` of a called operation stand: a static one sees nothing of an object.
pub(crate) fn calling_here<'t>(call: &Calling<'t>) -> Here<'t>
    ensures { here_of result ≡ here_plan (calling_of call.now) }
{
    if call.operation.access.is_static {
        static_inside(call.op.class)
    } else {
        inside(call.me, call.own, call.op.class)
    }
}

/// Where an operation of a class stands, on an object and its class.
fn inside<'t>(me: u32, own: Name, class: Name) -> Here<'t>
    ensures { here_of result ≡ inside_of me own class }
{
    Here {
        scope: Some(class),
        own: Some(own),
        me: Some(me),
        held: None,
        nest: Nest::none(),
    }
}

/// Where a static operation of a class stands.
fn static_inside<'t>(class: Name) -> Here<'t>
    ensures { here_of result ≡ static_of class }
{
    Here {
        scope: Some(class),
        own: Some(class),
        me: None,
        held: None,
        nest: Nest::none(),
    }
}
