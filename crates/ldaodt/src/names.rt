//! What the names on a command line lead to. Nothing is read to find that out.
ghost use Rattle.tape_values.specs.Told.{IsAsTold};
ghost use Rattle.ldaodt.specs.Names.{NamesTold, untold};

use std::fs;
use std::io::IsTerminal;
use std::os::unix::fs::FileTypeExt;
use std::rt::Files;

/// A system of files that is asked what a name leads to.
pub(crate) trait Names: Files {
    /// What names lead to, as far as the type tells.
    ghost told: { Self → NamesTold } = { λ _. untold };

    /// Whether a path leads to something that is there and no device.
    fn is_no_device(&self, path: &str) -> bool
        ensures { IsAsTold ((told self.now).no_device path.now) result };

    /// Whether a name is a terminal's.
    fn is_terminal(&self, name: &str) -> bool
        ensures { IsAsTold ((told self.now).terminal name.now) result };
}

impl Names for HostRuntime {
    fn is_no_device(&self, path: &str) -> bool {
        match fs::metadata(self, path) {
            Ok(metadata) => !metadata.file_type().is_char_device(),
            Err(_) => false,
        }
    }

    // Only a character device is opened: to open a pipe does something.
    fn is_terminal(&self, name: &str) -> bool {
        let Ok(metadata) = fs::metadata(self, name) else {
            return false;
        };
        if !metadata.file_type().is_char_device() {
            return false;
        }
        match fs::open(self, name) {
            Ok(file) => file.is_terminal(),
            Err(_) => false,
        }
    }
}
