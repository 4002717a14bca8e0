// Faults by their numbers.

use vdm_kinds::{RunFault, SpecKind};

/// The number of the first fault of a run.
const FIRST_RUN_FAULT: u32 = 101;

/// The number of the first kind of refusal.
const FIRST_SPEC_KIND: u32 = 1;

const RUN_FAULTS: [RunFault; 23] = [
    RunFault::Overflow,
    RunFault::DivideByZero,
    RunFault::TypeFault,
    RunFault::TypeInvariant,
    RunFault::InstanceInvariant,
    RunFault::Pre,
    RunFault::Post,
    RunFault::NoMatch,
    RunFault::NotInDomain,
    RunFault::EmptyOperand,
    RunFault::MapConflict,
    RunFault::Undefined,
    RunFault::UncaughtExit,
    RunFault::NotUnique,
    RunFault::NotSet,
    RunFault::SizeLimit,
    RunFault::StepLimit,
    RunFault::GuardFault,
    RunFault::NoThread,
    RunFault::StartedTwice,
    RunFault::HostRefused,
    RunFault::NoReturn,
    RunFault::ExponentRange,
];

const SPEC_KINDS: [SpecKind; 15] = [
    SpecKind::LexFault,
    SpecKind::SyntaxFault,
    SpecKind::TooDeep,
    SpecKind::TooLong,
    SpecKind::LeftOut,
    SpecKind::UnknownName,
    SpecKind::Duplicate,
    SpecKind::Cycle,
    SpecKind::Ambiguous,
    SpecKind::NotVisible,
    SpecKind::WrongArity,
    SpecKind::NoCommonValue,
    SpecKind::GuardReach,
    SpecKind::InitReach,
    SpecKind::NotSynchronised,
];

/// The fault of a run that has this number. The table stands in the order of the numbers, so that a fault with another
/// number is told by a row.
pub fn run_fault(number: u32) -> Option<RunFault> {
    RUN_FAULTS
        .get(number.checked_sub(FIRST_RUN_FAULT)? as usize)
        .copied()
}

/// The kind of refusal that has this number, likewise.
pub fn spec_kind(number: u32) -> Option<SpecKind> {
    SPEC_KINDS
        .get(number.checked_sub(FIRST_SPEC_KIND)? as usize)
        .copied()
}
