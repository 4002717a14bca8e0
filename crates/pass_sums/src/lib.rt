//! Sums over what all passes of a shared table know: definitions that rules speak of, and their lemmas.
#![tactic(auto)]
