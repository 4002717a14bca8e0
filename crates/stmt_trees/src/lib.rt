//! Which statement, and which specification, a list of tokens is.
#![tactic(auto)]
