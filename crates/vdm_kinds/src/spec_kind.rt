// The faults of a text.

ghost use Rattle.std.specs.Prelude.{◌≡◌};
ghost use Rattle.vdm_kinds.specs.SpecKinds.{spec_number, spec_name};

/// Why a text is refused.
#[derive(Clone, Copy, Debug, PartialEq, Eq)]
pub enum SpecKind {
    /// A byte or character that begins no token, a text that is not UTF-8, or what is not closed.
    LexFault = 1,
    /// No tree continues this token.
    SyntaxFault = 2,
    /// More than 200 nodes are nested.
    TooDeep = 3,
    /// The text has too many bytes.
    TooLong = 4,
    /// A form of the language that is left out.
    LeftOut = 5,
    /// The name is not found.
    UnknownName = 6,
    /// The name is defined again.
    Duplicate = 7,
    /// A class is its own ancestor, or a type its own alternative.
    Cycle = 8,
    /// Several definitions are found.
    Ambiguous = 9,
    /// The member is found and not visible.
    NotVisible = 10,
    /// The number of arguments, types or patterns does not fit.
    WrongArity = 11,
    /// No value of the expression's form fits its place.
    NoCommonValue = 12,
    /// A predicate or invariant reaches beyond what it may read.
    GuardReach = 13,
    /// A function, class value, type invariant or initialiser reaches beyond what it may read.
    InitReach = 14,
    /// A synchronisation clause or counter names what is not synchronised.
    NotSynchronised = 15,
}

impl SpecKind {
    /// The number that reports print.
    pub fn number(&self) -> u32
        ensures { result ≡ spec_number self.now }
    {
        *self as u32
    }

    /// The name that reports print after the number.
    pub fn name(&self) -> &'static str
        ensures { result.now ≡ spec_name self.now }
    {
        match self {
            SpecKind::LexFault => "LexFault",
            SpecKind::SyntaxFault => "SyntaxFault",
            SpecKind::TooDeep => "TooDeep",
            SpecKind::TooLong => "TooLong",
            SpecKind::LeftOut => "LeftOut",
            SpecKind::UnknownName => "UnknownName",
            SpecKind::Duplicate => "Duplicate",
            SpecKind::Cycle => "Cycle",
            SpecKind::Ambiguous => "Ambiguous",
            SpecKind::NotVisible => "NotVisible",
            SpecKind::WrongArity => "WrongArity",
            SpecKind::NoCommonValue => "NoCommonValue",
            SpecKind::GuardReach => "GuardReach",
            SpecKind::InitReach => "InitReach",
            SpecKind::NotSynchronised => "NotSynchronised",
        }
    }
}
