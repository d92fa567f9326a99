//! The names of tapes.
ghost use Rattle.std.specs.Prelude.{◌≡◌, ◌∷◌, IfOk};
ghost use Rattle.input_files.specs.Inputs.{means_input};

use std::alloc::{AllocError, Global};

/// Whether the names of tapes mean standard input: there is one, and that is `-`.
pub fn is_input(names: &[&str]) -> bool
    ensures { result ≡ means_input names.now }
{
    names.len() == 1 && *names[0] == *"-"
}

/// The same of the name of a tape and those of further ones.
pub(crate) fn is_lone_input(tape: &str, more: &[&str]) -> bool
    ensures { result ≡ means_input (tape.entry ∷ more.now) }
{
    more.is_empty() && *tape == *"-"
}

/// The names of all tapes, in order.
pub(crate) fn joined<'a>(
    alloc: Global,
    first: &'a str,
    more: &[&'a str],
) -> Result<Vec<&'a str>, AllocError>
    ensures { IfOk result (λ names. names.items ≡ first.entry ∷ more.now) }
{
    let mut names = Vec::new(alloc);
    names.push(first)?;
    names.extend_from_slice(more)?;
    Ok(names)
}
