// Nodes whose parts stand in one scope.

ghost use Rattle.std.specs.Prelude.{◌≡◌, IfOk};
ghost use Rattle.node_meaning.specs.Envs.{Locals};
ghost use Rattle.node_meaning.specs.Expressions.{expr_plan};
ghost use Rattle.node_meaning.specs.Needs.{Asker, Setting};
ghost use Rattle.expr_tree.specs.View.{view_of};
ghost use Rattle.expr_topics.specs.Topics.{topic_of};
ghost use Rattle.spec_table.specs.Tables.{table_spec};
ghost use Rattle.eval_data.specs.Parts.{here_of};
ghost use Rattle.eval_data.specs.Steps.{code_of};
ghost use Rattle.eval_steps.specs.Settings.{set};
ghost use Rattle.expr_topics.specs.declared.topic.Topic.TheVariants.{Parts as PartsTopic};

use crate::tested::asked;
use eval_data::{AskedType, ClassTest, Here, Parts, Step};
use expr_tree::Expr;
use record_steps::modify_record;
use std::alloc::Global;
use value_steps::{
    class_tested, component, infix, map_enumeration, prefix, range, sequence_enumeration,
    set_enumeration, subsequence, token, tuple_enumeration,
};
use vdm_kinds::{OutOfMemory, RunFault};

/// What such a node does.
pub(crate) fn parts<'t>(
    alloc: Global,
    here: Here<'t>,
    tree: &'t Expr,
) -> Result<Step<'t>, OutOfMemory>
    requires { topic_of (view_of tree.now) ≡ PartsTopic }
    ensures { IfOk result (λ s. (setting : Setting) (locals : Locals) → code_of setting locals s ≡ expr_plan setting (here_of here.entry) locals (view_of tree.now)) }
{
    match tree {
        Expr::Prefix(sign, operand, place) => Ok(prefix(here, *sign, operand, *place)),
        Expr::Infix(left, sign, right, place) => Ok(infix(here, left, *sign, right, *place)),
        Expr::SetEnumeration(elements, place) => { set_enumeration(alloc, here, elements, *place) }
        Expr::SetRange(from, to, place) => Ok(range(here, from, to, *place)),
        Expr::MapEnumeration(maplets, place) => {
            map_enumeration(alloc, here, maplets.as_slice(), *place)
        }
        Expr::SequenceEnumeration(items, place) => {
            sequence_enumeration(alloc, here, items, *place)
        }
        Expr::MakeTuple(parts, place) => tuple_enumeration(alloc, here, parts, *place),
        Expr::MakeToken(inner, place) => token(alloc, here, inner, *place),
        Expr::ModifyRecord(target, changes, place) => {
            modify_record(alloc, here, target, changes.as_slice(), *place)
        }
        Expr::IsOfBasic(basic, tested, place) => {
            Ok(asked(here, tested, AskedType::Basic(*basic), *place))
        }
        Expr::SameClass(left, right, place) => {
            let rest = Parts::One(right);
            class_tested(alloc, here, ClassTest::OneClass, *place, left, rest)
        }
        Expr::SameBaseClass(left, right, place) => {
            let rest = Parts::One(right);
            class_tested(alloc, here, ClassTest::OneBaseClass, *place, left, rest)
        }
        Expr::Subsequence(target, from, to, place) => {
            subsequence(alloc, here, target, from, to, *place)
        }
        Expr::SelectPart(target, number, place) => component(alloc, here, target, *number, *place),
        _ => Ok(Step::Fail(RunFault::Undefined, tree.place())),
    }
}
