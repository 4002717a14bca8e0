ghost use Rattle.plans.specs.Laws.{AnswersAreTakenFromTheFront, AnswersOnlyAdd, BindFollows, Equation, LevelsNeverMatter, OnlyTakes, QuestionsAreBounded, StepsAreSound};

use crate::rules::HistoryRules;

/// The equation of the meaning, by which a task is read from its plan.
pub fn equation<T, R, Q, A, F>()
    ensures { Equation T R Q A F }
{}

/// The bound on levels is never met before the units are.
pub fn levels_never_matter<T, R, Q, A, F>()
    ensures { LevelsNeverMatter T R Q A F }
{}

/// Units only fall, and the answers left are an end of those given.
pub fn only_takes<T, R, Q, A, F>()
    ensures { OnlyTakes T R Q A F }
{}

/// No outcome that was reached depends on the answers behind it.
pub fn answers_only_add<T, R, Q, A, F>()
    ensures { AnswersOnlyAdd T R Q A F }
{}

/// Plans may be put together: the one is followed, and then the other on its result.
pub fn bind_follows<T, R, Q, A, F>()
    ensures { BindFollows T R Q A F }
{}

/// What a task or a plan comes to took some answers from the front, and takes them whatever stands behind.
pub fn answers_are_taken_from_the_front<T, R, Q, A, F>()
    ensures { AnswersAreTakenFromTheFront T R Q A F }
{}

/// A task asks at most as many questions for each unit as a plan asks of its own.
pub fn questions_are_bounded<T, R, Q, A, F>()
    ensures { QuestionsAreBounded T R Q A F }
{}

/// Where the tasks keep the rules of histories, each plan that keeps them is sound, and asks few questions.
pub fn steps_are_sound<T, R, Q, A, F, H, K: HistoryRules<T, R, Q, A, F, H>>()
    ensures { StepsAreSound K.rules K.left }
{}
