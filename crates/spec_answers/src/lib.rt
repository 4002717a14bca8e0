//! What a text is read as: a statement from a lexeme on, and a specification as a whole.
#![tactic(auto)]
