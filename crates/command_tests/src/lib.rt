//! Whole requests in a system of which each part tells what it was asked, and refusals and faults on an output that tells
//! what it took: the witnesses that what `attempt`, `refuse` and `print_failure` promise of such can be met.
#![tactic(auto)]

#[cfg(test)]
mod broken_output;
#[cfg(test)]
mod failing_errors;
#[cfg(test)]
mod told_consoles;
#[cfg(test)]
mod told_inputs;
#[cfg(test)]
mod told_requests;
#[cfg(test)]
mod told_system;
