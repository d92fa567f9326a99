//! The files of a system, opened by their names.
ghost use Rattle.std.specs.Prelude.{[], ◌∷◌, List, Option, None};
ghost use Rattle.host_devices.specs.Told.{Tells};
ghost use Rattle.input_files.specs.Opening.{InputStep, given_by, opening};

use std::io::Read;
use std::rt::Files;
use std::{fs, io};

/// A system of files that are opened to be read.
///
/// A reference to any system of files of std is one, and tells nothing of what was opened.
pub trait InputFiles {
    /// An open file.
    type File: Read + Drop;

    /// What was opened so far, with what it will give its reader, and what was not, in its order; None where the type
    /// doesn't tell, or does so no longer.
    ghost opened: { Self → Option (List InputStep) } = { λ _. None };

    /// Opens a file to be read.
    fn open_input(&mut self, name: &str) -> io::Result<Self::File>
        ensures opened { Tells (opened self.old) (opened self.new) (opening name.now (given_by Self.File.remaining result) ∷ []) };
}

impl<F: Files> InputFiles for &F {
    type File = F::File;

    fn open_input(&mut self, name: &str) -> io::Result<F::File> {
        fs::open(*self, name)
    }
}
