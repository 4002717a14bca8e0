// Who may name a member.

/// From where a member may be named.
#[derive(Clone, Copy, Debug, PartialEq, Eq)]
pub enum Level {
    /// In its own class alone.
    Private,
    /// In its own class and those that have it among their ancestors.
    Protected,
    /// Everywhere.
    Public,
}

/// The access of a member. Where its definition says nothing it is private, and of each object.
#[derive(Clone, Copy, Debug, PartialEq, Eq)]
pub struct Access {
    /// Whether it belongs to the class object, and not to each object.
    pub is_static: bool,
    pub level: Level,
}
