//! Why a host that stores nothing may be let near a machine: one that looks, or tries.
//!
//! The functions do nothing: their contracts are the laws. After any deliveries, losses both ways,
//! timeouts and restarts of a host that looks memory is what it was, and each number that was read is
//! what memory holds at its address. Digits, `/`, `Z` and `a` store nothing, and a trial types no others.
//! So a look at a word, a trial of it and a second look read the same number. One line on which several
//! hosts ran, one after another, is a line for each of them. Used by the engines of looks and trials.
//!
//! The reading host does step by step what a loading host does whose plan says what memory holds
//! already, and `line_world` knows that one.
#![tactic(auto)]

mod readings;
mod trying;

pub use readings::{
    honest_readings_are_true, readings_do_no_harm, readings_hear_nothing_foreign,
    readings_leave_it_ready, unsaid_readings_are_true,
};
pub use trying::{
    honest_lines_split, looks_and_trials_do_no_harm, one_line_finds_the_word_again,
    one_line_is_a_row, others_may_follow, probes_find_the_word_again, readings_end_tidily,
    runs_leave_ready, trials_end_tidily, trials_only_try, trying_keys_store_nothing,
};
