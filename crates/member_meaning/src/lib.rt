//! Definitions: the member that a name means in a class. No code.
#![tactic(auto)]
