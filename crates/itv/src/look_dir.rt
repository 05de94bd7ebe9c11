//! What is under the names of the system, and who reads standard output.

use hints::{Looked, NameLook};
use std::fs;
use std::fs::File;
use std::io::ErrorKind;
use std::os::unix::fs::FileTypeExt;
use std::rt::Files;

// The standard output of this process, as the kernel names it. The link /dev/stdout to it may be missing.
const OWN_OUTPUT: &str = "/proc/self/fd/1";

/// The names of the system: a name is a path from the working directory.
#[derive(Drop)]
pub struct LookDir<R: Files + Drop>(pub R);

impl<R: Files + Drop> NameLook for LookDir<R> {
    fn look(&self, name: &str) -> Looked {
        match fs::metadata(&self.0, name) {
            Ok(found) if found.is_dir() => Looked::Folder,
            Ok(found) if found.is_file() => Looked::File,
            Ok(found) if found.file_type().is_fifo() => Looked::Pipe,
            Ok(_) => Looked::Other,
            Err(error) => match error.kind() {
                ErrorKind::NotFound | ErrorKind::NotADirectory => Looked::Absent,
                _ => Looked::Other,
            },
        }
    }

    fn is_denied(&self, name: &str) -> bool {
        match File::open(&self.0, name) {
            Ok(_) => false,
            Err(error) => error.kind() == ErrorKind::PermissionDenied,
        }
    }

    // A put fails at a pipe only if its reader has ended.
    fn is_output_closed(&self) -> bool {
        match fs::metadata(&self.0, OWN_OUTPUT) {
            Ok(found) => found.file_type().is_fifo(),
            Err(_) => false,
        }
    }
}
