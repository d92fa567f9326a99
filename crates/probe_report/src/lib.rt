//! What a probe says of a console: its findings, how it ends, and the text of its report.
//!
//! `Findings` are what the runs of a probe gave, `Notes` what was heard of the line meanwhile and `Pace`
//! how fast that went. `push_report` puts the report of them into a text, line for line as
//! `specs/ProbeText.antt` has it, and answers how the probe ended. Nothing here reaches a machine:
//! the crate `machine_probe` makes the findings, and promises how they come about.
#![tactic(auto)]

mod ending;
mod findings;
mod heard_text;
mod judging;
mod notes;
mod pace;
mod probe_end;
mod report;
mod style_text;

pub use findings::{Changes, Extent, Findings, Sighting, TrialEnd, TrialFindings};
pub use judging::{Verdict, judge};
pub use notes::Notes;
pub use pace::Pace;
pub use probe_end::ProbeEnd;
pub use report::{Report, push_report};
