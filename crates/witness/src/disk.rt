use crate::file::WatchedFile;
use crate::watched::Watched;
use record_file::{Access, Disk};
use std::alloc::Global;
use std::fs::Metadata;
use std::io;
use std::path::PathBuf;

impl<'c, T: Disk> Disk for Watched<'c, T> {
    type File = WatchedFile<'c, T::File>;

    ghost asked = { λ watched. T.asked watched.part };

    ghost is_opened_as = { λ watched name. T.is_opened_as watched.file name };

    ghost holds = { λ watched. T.holds watched.part };

    fn look(&mut self, name: &str) -> io::Result<Metadata> {
        self.witness.of_question(self.part.look(name))
    }

    fn look_at_name(&mut self, name: &str) -> io::Result<Metadata> {
        self.witness.of_question(self.part.look_at_name(name))
    }

    fn is_sole_file(&mut self, name: &str) -> bool {
        self.part.is_sole_file(name)
    }

    fn has_name(&mut self, name: &str, file: &WatchedFile<'c, T::File>) -> bool {
        self.part.has_name(name, &file.file)
    }

    fn resolve(&mut self, alloc: Global, name: &str) -> io::Result<PathBuf<Global>> {
        self.witness.of_question(self.part.resolve(alloc, name))
    }

    // A record that may be read and not be written is opened once more, to be read; why it may not be written is
    // remembered.
    fn open(&mut self, access: Access, name: &str) -> io::Result<WatchedFile<'c, T::File>> {
        let answer = self.part.open(access, name);
        let opened = match access {
            Access::ReadOnly => self.witness.of_call(answer),
            Access::ReadWrite | Access::New | Access::Created => self.witness.of_opening(answer),
        };
        match opened {
            Ok(file) => Ok(WatchedFile::new(file, self.witness)),
            Err(error) => Err(error),
        }
    }

    fn hold(&mut self, file: &WatchedFile<'c, T::File>) -> bool {
        self.part.hold(&file.file)
    }

    fn link(&mut self, from: &str, to: &str) -> io::Result<()> {
        self.witness.of_call(self.part.link(from, to))
    }

    fn rename(&mut self, file: &WatchedFile<'c, T::File>, from: &str, to: &str) -> io::Result<()> {
        self.witness.of_call(self.part.rename(&file.file, from, to))
    }

    // What is removed is in the way, or was made in vain: why that fails is no reason of anything.
    fn remove(&mut self, name: &str) -> io::Result<()> {
        self.part.remove(name)
    }

    fn sync_folder(&mut self, folder: &WatchedFile<'c, T::File>) -> io::Result<()> {
        self.witness.of_call(self.part.sync_folder(&folder.file))
    }

    fn cut(&mut self, file: &WatchedFile<'c, T::File>, length: u64) -> io::Result<()> {
        self.witness.of_call(self.part.cut(&file.file, length))
    }

    fn sync_file(&mut self, file: &WatchedFile<'c, T::File>) -> io::Result<()> {
        self.witness.of_call(self.part.sync_file(&file.file))
    }
}
