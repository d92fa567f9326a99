//! A disk that tells what it was asked.
ghost use Rattle.std.specs.Prelude.{◌≡◌, ◌∷◌, [], None, IfOk, MatchResult};
ghost use Rattle.std.specs.String.{string_bytes};
ghost use Rattle.host_devices.specs.Told.{Tells};
ghost use Rattle.record_file.specs.DiskStep.{step_by};
ghost use Rattle.told_calls.specs.ToldSteps.{request_of, step_of, steps_of};

use crate::told_file::ToldFile;
use crate::told_step::{ToldRequest, ToldStep};
use record_file::{Access, Disk};
use std::alloc::{AllocError, Global};
use std::fs::Metadata;
use std::io;
use std::path::PathBuf;

/// The disk of the system, with a list of what was asked of it: as long as there is memory for that, since
/// a list that lacks a step would be wrong.
#[derive(Drop)]
pub struct ToldDisk<'a> {
    alloc: Global,
    disk: &'a HostRuntime,
    asked: Option<Vec<ToldStep>>,
}

impl<'a> ToldDisk<'a> {
    /// A disk of which nothing was asked yet.
    pub fn new(disk: &'a HostRuntime) -> ToldDisk<'a> {
        let alloc = disk.alloc();
        ToldDisk {
            alloc,
            disk,
            asked: Some(Vec::new(alloc)),
        }
    }

    /// What was asked so far, in its order; None where there was no memory to keep it.
    pub fn asked(&self) -> Option<&[ToldStep]> {
        match &self.asked {
            Some(asked) => Some(asked),
            None => None,
        }
    }

    /// The same, one thing a line, `+` before what was done and `-` before what failed.
    pub fn shown(&self) -> Option<String> {
        let mut text = String::new(self.alloc);
        for step in self.asked()? {
            let line = format!(in self.alloc; "{step}\n").ok()?;
            text.push_str(line.as_str()).ok()?;
        }
        Some(text)
    }

    // A copy of a name.
    fn copy(&self, name: &str) -> Result<String, AllocError>
        ensures { IfOk result (λ copy. string_bytes copy ≡ name.now) }
    {
        String::from_str(self.alloc, name)
    }

    // Puts what was asked behind the list, with whether it was done.
    fn tell(&mut self, request: Result<ToldRequest, AllocError>, done: bool)
        ensures asked { MatchResult request
            (λ request. Tells (steps_of self.old.asked) (steps_of self.new.asked) (step_by (request_of request) done ∷ []))
            (λ _. self.new.asked ≡ None) }
    {
        match request {
            Ok(request) if done => self.add(ToldStep::Did(request)),
            Ok(request) => self.add(ToldStep::Failed(request)),
            Err(_) => self.asked = None,
        }
    }

    // Puts a step behind the list.
    fn add(&mut self, step: ToldStep)
        ensures asked { Tells (steps_of self.old.asked) (steps_of self.new.asked) (step_of step ∷ []) }
    {
        if let Some(mut asked) = self.asked.take() {
            if asked.push(step).is_ok() {
                self.asked = Some(asked);
            }
        }
    }

    // Opens a file, with a copy of its name.
    fn opened(&mut self, access: Access, name: &str) -> io::Result<ToldFile>
        ensures named { IfOk result (λ file. string_bytes file.name ≡ name.now) }
        ensures fresh { IfOk result (λ file. file.written.items ≡ []) }
        ensures asked { self.new.asked ≡ self.old.asked }
    {
        let copy = self.copy(name)?;
        Ok(ToldFile {
            file: self.disk.open(access, name)?,
            name: copy,
            written: Vec::new(self.alloc),
            on_disk: 0,
        })
    }
}

impl Disk for ToldDisk<'_> {
    type File = ToldFile;

    ghost asked = { λ disk. steps_of disk.asked };

    ghost is_opened_as = { λ file name. string_bytes file.name ≡ name };

    fn look(&mut self, name: &str) -> io::Result<Metadata> {
        let found = self.disk.look(name);
        self.tell(self.copy(name).map(ToldRequest::Look), found.is_ok());
        found
    }

    fn look_at_name(&mut self, name: &str) -> io::Result<Metadata> {
        let found = self.disk.look_at_name(name);
        self.tell(self.copy(name).map(ToldRequest::LookAtName), found.is_ok());
        found
    }

    fn is_sole_file(&mut self, name: &str) -> bool {
        let is_sole = self.disk.is_sole_file(name);
        self.tell(self.copy(name).map(ToldRequest::FindSoleFile), is_sole);
        is_sole
    }

    fn has_name(&mut self, name: &str, file: &ToldFile) -> bool {
        let has_name = self.disk.has_name(name, &file.file);
        match (self.copy(name), Vec::from_slice(self.alloc, &file.written)) {
            (Ok(name), Ok(written)) => self.tell(
                Ok(ToldRequest::FindFile(name, written)),
                has_name,
            ),
            _ => self.asked = None,
        }
        has_name
    }

    fn resolve(&mut self, alloc: Global, name: &str) -> io::Result<PathBuf<Global>> {
        let target = self.disk.resolve(alloc, name);
        match &target {
            Ok(path) => match (self.copy(name), self.copy(path.as_str())) {
                (Ok(name), Ok(path)) => self.add(ToldStep::LedTo(name, path)),
                _ => self.asked = None,
            },
            Err(_) => self.tell(self.copy(name).map(ToldRequest::Resolve), false),
        }
        target
    }

    fn open(&mut self, access: Access, name: &str) -> io::Result<ToldFile> {
        let opened = self.opened(access, name);
        match self.copy(name) {
            Ok(name) => self.tell(Ok(ToldRequest::Open(access, name)), opened.is_ok()),
            Err(_) => self.asked = None,
        }
        opened
    }

    fn hold(&mut self, file: &ToldFile) -> bool {
        let is_held = self.disk.hold(&file.file);
        self.tell(self.copy(&file.name).map(ToldRequest::Hold), is_held);
        is_held
    }

    fn link(&mut self, from: &str, to: &str) -> io::Result<()> {
        let linked = self.disk.link(from, to);
        match (self.copy(from), self.copy(to)) {
            (Ok(from), Ok(to)) => self.tell(Ok(ToldRequest::Link(from, to)), linked.is_ok()),
            _ => self.asked = None,
        }
        linked
    }

    fn rename(&mut self, file: &ToldFile, from: &str, to: &str) -> io::Result<()> {
        let renamed = self.disk.rename(&file.file, from, to);
        let on_disk = &file.written[..file.on_disk.min(file.written.len())];
        match (
            self.copy(from),
            self.copy(to),
            Vec::from_slice(self.alloc, on_disk),
        ) {
            (Ok(from), Ok(to), Ok(left)) => self.tell(
                Ok(ToldRequest::Rename(from, to, left)),
                renamed.is_ok(),
            ),
            _ => self.asked = None,
        }
        renamed
    }

    fn remove(&mut self, name: &str) -> io::Result<()> {
        let removed = self.disk.remove(name);
        self.tell(self.copy(name).map(ToldRequest::Remove), removed.is_ok());
        removed
    }

    fn sync_folder(&mut self, folder: &ToldFile) -> io::Result<()> {
        let synced = self.disk.sync_folder(&folder.file);
        self.tell(
            self.copy(&folder.name).map(ToldRequest::SyncFolder),
            synced.is_ok(),
        );
        synced
    }

    fn cut(&mut self, file: &ToldFile, length: u64) -> io::Result<()> {
        let cut = self.disk.cut(&file.file, length);
        match Vec::from_slice(self.alloc, &file.written) {
            Ok(written) => self.tell(Ok(ToldRequest::Cut(written, length)), cut.is_ok()),
            Err(_) => self.asked = None,
        }
        cut
    }

    fn sync_file(&mut self, file: &ToldFile) -> io::Result<()> {
        let synced = self.disk.sync_file(&file.file);
        match Vec::from_slice(self.alloc, &file.written) {
            Ok(written) => self.tell(Ok(ToldRequest::SyncFile(written)), synced.is_ok()),
            Err(_) => self.asked = None,
        }
        synced
    }
}
