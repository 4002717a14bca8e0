ghost use Rattle.plans.specs.Steps.{Rules};

/// Rules of histories `H`. No clause can speak of all rules, since they hold predicates: a type that implements this stands for them.
pub trait HistoryRules<T, R, Q, A, F, H> {
    /// What may be asked, begun, left and failed with behind each history.
    ghost rules: { Rules T R Q A F H };

    /// The results that a plan may leave behind each history.
    ghost left: { H → R → Type 0 };
}
