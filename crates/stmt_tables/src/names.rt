// Short names for what is wanted in types, patterns and expressions.

use grammar_fronts::Wanted;
use stmt_fronts::Expected;

pub(crate) const EXPRESSION: Expected = Expected::Within(Wanted::Expression);

pub(crate) const PATTERN: Expected = Expected::Within(Wanted::Pattern);

pub(crate) const DECLARED_TYPE: Expected = Expected::Within(Wanted::WholeType);

pub(crate) const IDENTIFIER: Expected = Expected::Within(Wanted::Identifier);

pub(crate) const EQUALS: Expected = Expected::Within(Wanted::Equals);

pub(crate) const IN_WORD: Expected = Expected::Within(Wanted::In);

pub(crate) const OPEN_ROUND: Expected = Expected::Within(Wanted::OpenRound);

pub(crate) const CLOSE_ROUND: Expected = Expected::Within(Wanted::CloseRound);

pub(crate) const COMMA: Expected = Expected::Within(Wanted::Comma);

pub(crate) const COLON: Expected = Expected::Within(Wanted::Colon);

pub(crate) const BEHIND_CLASS: Expected = Expected::Within(Wanted::BehindClass);

pub(crate) const LOCAL_TYPE: Expected = Expected::Within(Wanted::LocalType);

pub(crate) const MAPS_TO: Expected = Expected::Within(Wanted::MapsTo);
