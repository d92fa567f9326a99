//! Why words ask for nothing that could be done.
ghost use Rattle.std.specs.Prelude.{◌≡◌, ◌≢◌};
ghost use Rattle.clap.specs.Values.{kind_of};
ghost use Rattle.command_line.specs.Refusal.{IsHelp, IsHelpText, IsRefusal};

use crate::refusals;
use clap::Error;
use clap::error::ErrorKind;
use std::alloc::{AllocError, Global};

/// Why words ask for nothing that could be done.
#[derive(Drop)]
pub enum NoRequest {
    /// Help or the version was asked for: this text.
    Help(String),

    /// The words are refused: what is wrong with them.
    Refused(String),

    /// The parser let words pass that mean nothing here. No such words are known.
    Meaningless,

    /// A growth of memory was refused.
    NoMemory,
}

impl From<AllocError> for NoRequest {
    ghost use Rattle.command_line.specs.declared.no_request.NoRequest.TheVariants.{NoMemory};

    ghost from_gives = { λ _ answer. answer ≡ NoMemory };

    fn from(_refused: AllocError) -> NoRequest {
        NoRequest::NoMemory
    }
}

impl NoRequest {
    /// What the parser's error comes to, where this is the first of the words: the text of help or the
    /// version, or a refusal. Want of memory is `NoMemory`.
    pub(crate) fn of(alloc: Global, first: &str, error: &Error) -> NoRequest
        ensures memory { kind_of error.now ≡ ErrorKind.OutOfMemory → result ≡ NoRequest.NoMemory }
        ensures help { IsHelp (kind_of error.now) → IsHelpText result }
        ensures other { (kind_of error.now ≢ ErrorKind.DisplayHelp) → (kind_of error.now ≢ ErrorKind.DisplayVersion) → IsRefusal result }
    {
        match error.kind() {
            ErrorKind::OutOfMemory => NoRequest::NoMemory,
            ErrorKind::DisplayHelp | ErrorKind::DisplayVersion => {
                NoRequest::helping(format!(in alloc; "{error}"))
            }
            _ => NoRequest::refusing(refusals::text_of(alloc, first, error)),
        }
    }

    // A text that was asked for, where there was memory for it.
    fn helping(text: Result<String, AllocError>) -> NoRequest
        ensures { IsHelpText result }
    {
        match text {
            Ok(text) => NoRequest::Help(text),
            Err(_) => NoRequest::NoMemory,
        }
    }

    /// A refusal by this text, where there was memory for it.
    pub(crate) fn refusing(text: Result<String, AllocError>) -> NoRequest
        ensures { IsRefusal result }
    {
        match text {
            Ok(text) => NoRequest::Refused(text),
            Err(_) => NoRequest::NoMemory,
        }
    }
}
