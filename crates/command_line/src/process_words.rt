//! The words that the process was started with.
ghost use Rattle.std.specs.Prelude.{◌≡◌, ◌≢◌};
ghost use Rattle.std.specs.IoError.{error_kind};

use endings::Failure;
use std::alloc::AllocGlobal;
use std::io::ErrorKind;
use std::rt::Env;
use std::{env, io};

/// The words after the program's name, or why they can't be had: `BadWord` where one of them is not
/// UTF-8, `NoMemory` where a growth was refused.
pub fn words_of<R: Env + AllocGlobal>(rt: &R) -> Result<Vec<String>, Failure<'static>> {
    let all = match env::args(rt) {
        Ok(all) => all,
        Err(error) => return Err(failure_of(&error)),
    };
    let mut words = Vec::new(rt.alloc());
    for word in all.skip(1) {
        if words.push(word).is_err() {
            return Err(Failure::NoMemory);
        }
    }
    Ok(words)
}

// Why the words can't be had: one of them is no text, or else memory was wanting.
fn failure_of(error: &io::Error) -> Failure<'static>
    ensures word { error_kind error.now ≡ ErrorKind.InvalidData → result ≡ Failure.BadWord }
    ensures memory { error_kind error.now ≢ ErrorKind.InvalidData → result ≡ Failure.NoMemory }
{
    match error.kind() {
        ErrorKind::InvalidData => Failure::BadWord,
        _ => Failure::NoMemory,
    }
}
