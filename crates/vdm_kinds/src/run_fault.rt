// The faults of a run.

ghost use Rattle.std.specs.Prelude.{◌≡◌};
ghost use Rattle.vdm_kinds.specs.RunFaults.{run_number, run_name};

/// Why a run fails.
#[derive(Clone, Copy, Debug, PartialEq, Eq)]
pub enum RunFault {
    /// A number outside -2^127 to 2^127 - 1.
    Overflow = 101,
    /// A divisor is 0.
    DivideByZero = 102,
    /// A value of a kind or structure that its place does not want.
    TypeFault = 103,
    /// A value of the type's structure that misses its invariant.
    TypeInvariant = 104,
    /// A state that an instance invariant refuses.
    InstanceInvariant = 105,
    /// A precondition is false.
    Pre = 106,
    /// A postcondition is false.
    Post = 107,
    /// No pattern, alternative or element fits.
    NoMatch = 108,
    /// A map or sequence has nothing there.
    NotInDomain = 109,
    /// An operator wants what is not empty.
    EmptyOperand = 110,
    /// One key would have two values.
    MapConflict = 111,
    /// An unset variable, `undefined`, `error` or a body that is left to subclasses.
    Undefined = 112,
    /// An exit leaves its thread.
    UncaughtExit = 113,
    /// Not exactly one element fits.
    NotUnique = 114,
    /// A bind goes over what is no set.
    NotSet = 115,
    /// A value of more than 200,000 nodes or depth above 500.
    SizeLimit = 116,
    /// No unit is left for a node that is entered.
    StepLimit = 117,
    /// A permission predicate faults.
    GuardFault = 118,
    /// The class of the started object has no thread.
    NoThread = 119,
    /// The object was started before.
    StartedTwice = 120,
    /// A host function refuses its arguments.
    HostRefused = 121,
    /// A result is due and none came.
    NoReturn = 122,
    /// An exponent outside its range.
    ExponentRange = 123,
}

impl RunFault {
    /// The number that reports print.
    pub fn number(&self) -> u32
        ensures { result ≡ run_number self.now }
    {
        *self as u32
    }

    /// The name that reports print after the number.
    pub fn name(&self) -> &'static str
        ensures { result.now ≡ run_name self.now }
    {
        match self {
            RunFault::Overflow => "Overflow",
            RunFault::DivideByZero => "DivideByZero",
            RunFault::TypeFault => "TypeFault",
            RunFault::TypeInvariant => "TypeInvariant",
            RunFault::InstanceInvariant => "InstanceInvariant",
            RunFault::Pre => "Pre",
            RunFault::Post => "Post",
            RunFault::NoMatch => "NoMatch",
            RunFault::NotInDomain => "NotInDomain",
            RunFault::EmptyOperand => "EmptyOperand",
            RunFault::MapConflict => "MapConflict",
            RunFault::Undefined => "Undefined",
            RunFault::UncaughtExit => "UncaughtExit",
            RunFault::NotUnique => "NotUnique",
            RunFault::NotSet => "NotSet",
            RunFault::SizeLimit => "SizeLimit",
            RunFault::StepLimit => "StepLimit",
            RunFault::GuardFault => "GuardFault",
            RunFault::NoThread => "NoThread",
            RunFault::StartedTwice => "StartedTwice",
            RunFault::HostRefused => "HostRefused",
            RunFault::NoReturn => "NoReturn",
            RunFault::ExponentRange => "ExponentRange",
        }
    }
}
