// Forms that begin with single tokens.

use crate::frame::Frame;
use expr_tree::{Expr, FieldValue};
use vdm_kinds::{Counter, Name, NameAt, Place};

/// What a name of a type is for.
#[derive(Clone, Copy)]
pub enum TypeNameFor {
    /// A record is made.
    Made,
    /// A value is asked for its type.
    Asked,
    /// A record is taken apart.
    MadePattern,
}

/// What was read of a form that begins with single tokens.
#[derive(Drop)]
pub enum Header {
    /// `(`, and then an expression in the frame.
    Opens(Frame),
    /// `,`, and then an expression in the frame.
    CommaThen(Frame),
    /// `st`, and then an expression in the frame.
    StThen(Frame),
    /// `->`, and then an expression in the frame.
    ArrowThen(Frame),
    /// `(`, and then a pattern in the frame.
    OpensPattern(Frame),
    /// What stands behind the first name of a type.
    TypeAfter(TypeNameFor, Name, Place),
    /// The name of a type behind that of its class.
    TypeRest(TypeNameFor, Name, Place),
    QualifiedRest(Name, Place),
    /// The name behind a `.`.
    MemberOf(Box<Expr>, Place),
    /// The name of a member behind that of its class.
    MemberRest(Box<Expr>, Name, Place, Place),
    /// The number behind `.#`.
    PartOf(Box<Expr>, Place),
    NewName(Place),
    CounterOpens(Counter, Place),
    CounterName(Counter, Vec<NameAt>, Place),
    CounterNext(Counter, Vec<NameAt>, Place),
    ClassOpens(Place),
    ClassName(Place),
    BaseClassOpens(Place),
    BaseClassName(Place),
    FieldName(Box<Expr>, Vec<FieldValue>, Place),
    FieldArrow(Box<Expr>, Vec<FieldValue>, Name, Place, Place),
    /// The end of `{|->}`.
    EmptyMapEnd(Place),
    EmptyPatternEnd(Place),
}

impl Header {
    /// The form goes, with what was read of it.
    pub fn discard(self) {}
}
