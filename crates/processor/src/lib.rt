//! A PDP-11 as a program sees it: registers, condition codes, addressing modes, the instructions of the
//! stub, and the console's receiver and transmitter.
//!
//! `specs/` is what a reader must believe, and all that is here: an instruction is one equation under
//! its name (`Execution`), and what stands outside what is described leads astray. The five functions
//! do nothing: their contracts are each instruction's examples, worked out by hand (`Examples`).
//!
//! Used by `stub`, whose words run on it.
#![tactic(auto)]

mod examples;

pub use examples::{
    branches_go, console_answers, operands_are_found, results_are_right, words_are_decoded,
};
