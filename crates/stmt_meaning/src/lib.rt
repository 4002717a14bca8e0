//! What statements, calls of operations and new objects do, and what each task does. Definitions alone.
#![tactic(auto)]
