//! What each node of an expression does, and what is evaluated. Definitions alone.
#![tactic(auto)]
