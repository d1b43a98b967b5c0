use libc::EINVAL;
use std::alloc::{AllocError, Global};
use std::marker::Model;

/// For how many ms a call waits at most before the file is looked for: nobody notices so little, and
/// it is no load.
pub const LOOK: i32 = 40;

/// A file that is looked for, or none.
#[derive(Drop)]
pub struct StopFile {
    path: Option<String>,
}

impl Model for StopFile {
    ghost use Rattle.std.specs.Prelude.{Bool, is_some};

    ghost Value = { Bool };

    ghost view = { λ file. is_some file.path };
}

impl StopFile {
    ghost use Rattle.std.specs.Prelude.{◌≡◌, true, false, IfOk};

    /// No file: nobody asks.
    pub fn none() -> Self
        ensures { result ≡ false }
    {
        StopFile { path: None }
    }

    /// The file of a folder.
    pub fn in_folder(alloc: Global, folder: &str) -> Result<Self, AllocError>
        ensures { IfOk result (λ file. file ≡ true) }
    {
        let path = format!(in alloc; "{folder}/stop")?;
        Ok(StopFile { path: Some(path) })
    }

    /// The same file, to be looked for at another place of the program.
    pub fn again(&self, alloc: Global) -> Result<Self, AllocError>
        ensures { IfOk result (λ file. file ≡ self.now) }
    {
        let path = match &self.path {
            Some(path) => Some(format!(in alloc; "{path}")?),
            None => None,
        };
        Ok(StopFile { path })
    }

    /// Whether there is a file to look for.
    pub fn may_come(&self) -> bool
        ensures { result ≡ self.now }
    {
        self.path.is_some()
    }

    /// Whether the file is there: somebody asks.
    pub fn is_there(&self) -> bool
        ensures { result ≡ true → self.now ≡ true }
    {
        match &self.path {
            Some(path) => is_found(path.as_bytes()),
            None => false,
        }
    }
}

// Whether there is something at a path: a link, or what the system says is none.
fn is_found(path: &[u8]) -> bool {
    os::readlink(path, &mut [0]) >= 0 || os::errno() == EINVAL
}
