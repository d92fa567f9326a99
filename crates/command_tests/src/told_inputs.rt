//! Files that are opened to be read, with a list of which were, and what each held.
ghost use Rattle.std.specs.Prelude.{Some};
ghost use Rattle.told_calls.specs.ToldOpenings.{opened_by};

use input_files::InputFiles;
use std::alloc::Global;
use std::collections::VecDeque;
use std::io::Read;
use std::process::Abort;
use std::rt::Files;
use std::{fs, io};
use told_calls::ToldOpening;

/// The files of the system, which tell which of them were opened, and what these hold: each is read when it is opened.
/// Where there is no memory for one thing more the process ends, since a list that lacks one would be wrong.
#[derive(Drop)]
pub(crate) struct ToldInputs<'a, R: Abort + Files> {
    rt: &'a R,
    alloc: Global,
    pub(crate) opened: Vec<ToldOpening>,
}

impl<'a, R: Abort + Files> ToldInputs<'a, R> {
    /// Of which none was opened.
    pub(crate) fn new(rt: &'a R, alloc: Global) -> ToldInputs<'a, R> {
        ToldInputs {
            rt,
            alloc,
            opened: Vec::new(alloc),
        }
    }
    // What the file of a name holds.
    fn text_of(&self, name: &str) -> io::Result<Vec<u8>> {
        let mut text = Vec::new(self.alloc);
        let mut file = fs::open(self.rt, name)?;
        file.read_to_end(&mut text)?;
        Ok(text)
    }
}

impl<'a, R: Abort + Files> InputFiles for ToldInputs<'a, R> {
    type File = VecDeque<u8>;

    ghost opened = { λ inputs. Some (opened_by inputs.opened.items) };

    fn open_input(&mut self, name: &str) -> io::Result<VecDeque<u8>> {
        let copy = String::from_str(self.alloc, name).expect(self.rt, "no memory");
        match self.text_of(name) {
            Ok(text) => {
                let mut told = Vec::new(self.alloc);
                told.extend_from_slice(&text).expect(self.rt, "no memory");
                self.opened
                    .push(ToldOpening::Opened(copy, told))
                    .expect(self.rt, "no memory");
                Ok(VecDeque::from_vec(text))
            }
            Err(error) => {
                self.opened
                    .push(ToldOpening::NotOpened(copy))
                    .expect(self.rt, "no memory");
                Err(error)
            }
        }
    }
}
