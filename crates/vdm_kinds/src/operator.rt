// The names of the strict operators.

/// A strict operator: one that evaluates all its operands, from left to right.
#[derive(Clone, Copy, Debug, PartialEq, Eq)]
pub enum Operator {
    /// `+` before a number.
    Positive,
    /// `-` before a number.
    Negative,
    /// `abs`
    Absolute,
    /// `+` between numbers.
    Plus,
    /// `-` between numbers.
    Minus,
    /// `*`
    Times,
    /// `div`
    Div,
    /// `rem`
    Rem,
    /// `mod`
    Mod,
    /// `**`
    Exponent,
    /// `<`
    Less,
    /// `<=`
    LessEqual,
    /// `>`
    Greater,
    /// `>=`
    GreaterEqual,
    /// `=`
    Equal,
    /// `<>`
    NotEqual,
    /// `not`
    Not,
    /// `<=>`
    Equivalent,
    /// `card`
    Card,
    /// `power`
    PowerSet,
    /// `dunion`
    DistributedUnion,
    /// `dinter`
    DistributedInter,
    /// `union`
    Union,
    /// `inter`
    Inter,
    /// `\`
    Difference,
    /// `subset`
    Subset,
    /// `psubset`
    ProperSubset,
    /// `in set`
    InSet,
    /// `not in set`
    NotInSet,
    /// `{N,...,N}`, which has no sign.
    Interval,
    /// `len`
    Length,
    /// `inds`
    Indices,
    /// `elems`
    Elements,
    /// `conc`
    DistributedConcatenation,
    /// `^`
    Concatenation,
    /// `hd`
    Head,
    /// `tl`
    Tail,
    /// `Q(N)` and `M(v)`, which have no sign.
    LookUp,
    /// `Q(N,...,N)`, which has no sign.
    Subsequence,
    /// `++`
    Override,
    /// `dom`
    Domain,
    /// `rng`
    Range,
    /// `<:`
    DomainRestriction,
    /// `<-:`
    DomainRemoval,
    /// `:>`
    RangeRestriction,
    /// `:->`
    RangeRemoval,
    /// `munion`
    MapUnion,
    /// `merge`
    Merge,
    /// `inverse`
    Inverse,
    /// `comp`
    Composition,
}
