//! What a text is read as, by its lexemes: a tree, or the fault that comes first.
#![tactic(auto)]
