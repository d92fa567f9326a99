use crate::file::WatchedFile;
use crate::watched::Watched;
use input_files::InputFiles;
use std::io;

impl<'c, T: InputFiles> InputFiles for Watched<'c, T> {
    type File = WatchedFile<'c, T::File>;

    ghost opened = { λ watched. T.opened watched.part };

    fn open_input(&mut self, name: &str) -> io::Result<WatchedFile<'c, T::File>> {
        match self.witness.of_input(self.part.open_input(name)) {
            Ok(file) => Ok(WatchedFile::new(file, self.witness)),
            Err(error) => Err(error),
        }
    }
}
