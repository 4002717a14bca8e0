//! Tests of what rows can't show: readers and writers that fail as told, and want of memory as it is told.
#![tactic(auto)]

#[cfg(test)]
mod halts;
#[cfg(test)]
mod streams;
