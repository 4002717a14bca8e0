//! What the language means: the code of main, and which lists of entries are runs. Definitions and laws alone.
#![tactic(auto)]

mod laws;

pub use laws::{
    a_finished_run_exists, a_finished_run_has_one_end, an_unfinished_run_goes_on,
    class_objects_come_first, fronts_of_runs_are_runs, nothing_stands_behind_an_end, one_run,
    what_is_asked_is_ready, worked_calls, worked_counter, worked_invariants, worked_prints,
    worked_sums,
};
