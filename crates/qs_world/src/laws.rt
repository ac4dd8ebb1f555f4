//! Laws of the definitions alone: those of runs, and of what is printed.

ghost use Rattle.qs_world.specs.Examples.{Examples};
ghost use Rattle.qs_world.specs.ExclusionsComes.{ComesExclusions};

pub use qs_runs::laws::{
    acked_has_arrived, arrived_was_taken, claims_tell_nothing, event_runs_are_runs,
    every_run_agrees, final_size_is_declared, final_sizes_agree, known_is_within_granted,
    new_ends_meet_invariant, no_end_closes, open_at_initiator, opened_is_below_known,
    pieces_are_written, read_is_a_prefix, read_is_written, received_is_below_sent,
    received_is_whole, repeats_spend_nothing, reset_code_is_the_senders, sent_is_within_known,
    spent_is_below_sent, steps_keep_invariant, stored_is_written, what_is_known_stays,
};
pub use qs_script::laws::printed_scripts_parse;

/// A run of one step, and the lines of a report, computed by the definitions.
pub fn examples()
    ensures { Examples }
{}

/// What the bound of a plain loop's events excludes; and that there is none where memory is refused.
pub fn comes_exclusions()
    ensures { ComesExclusions }
{}
