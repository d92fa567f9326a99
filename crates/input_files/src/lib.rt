//! Tapes taken of inputs, and by the names of their files.
//!
//! `take_tapes` answers the tapes that begin some inputs and takes their bytes alone, or the first refusal or failed
//! read, by its number.
//!
//! All that a request names are opened before any is read, and the first that can't be opened is named: where the
//! system tells what it opened (`InputFiles`), the contracts say just this, and that nothing else was opened. `take`
//! answers the tapes of standard input, where `-` is their only name, else those in the files; `take_with_script` those
//! of a rehearsal, `open` a file that is no tape. There may be more files than descriptors: then what is open is read
//! ahead and closed (`Source`), which its reader can't tell, and the file is tried once more. Used by `tape_commands` and `requests`.
#![tactic(auto)]

mod names;
mod opening;
mod source;
mod system;
mod taking;
mod tapes;

pub use names::is_input;
pub use opening::open;
pub use source::Source;
pub use system::InputFiles;
pub use taking::{take, take_input, take_with_script};
pub use tapes::{Tapes, take_tapes};
