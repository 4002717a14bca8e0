//! A test of the source of stamps, with ample memory.
#![tactic(auto)]

#[cfg(test)]
mod draws;
