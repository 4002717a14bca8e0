// What of a text is still to come.

use vdm_values::Value;

/// A piece of a text that is still to come.
#[derive(Clone, Copy)]
pub enum Piece<'v> {
    /// As it stands.
    Word(&'static str),
    /// The value.
    One(&'v Value),
    /// The values, with `, ` between each two.
    Values(&'v [Value]),
    /// The values, each behind `, `.
    FurtherValues(&'v [Value]),
    /// The pairs of a map, which are `|->` where there is none.
    Pairs(&'v [(Value, Value)]),
    /// The pairs, each behind `, `.
    FurtherPairs(&'v [(Value, Value)]),
}
