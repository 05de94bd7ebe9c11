//! What is under the name of a file.

/// What is under a name.
#[derive(Clone, Copy, PartialEq, Eq)]
pub enum Looked {
    /// A file that can be read as often as one likes, if it may be read.
    File,
    Folder,
    /// Nothing.
    Absent,
    /// A pipe, which is read once.
    Pipe,
    /// Something else, as a terminal.
    Other,
}

/// Looks at the system without reading or writing anything.
pub trait NameLook {
    /// What is under a name as the shelf of a run takes it.
    fn look(&self, name: &str) -> Looked;

    /// Whether there is no permission to read a file.
    fn is_denied(&self, name: &str) -> bool;

    /// Whether nobody reads the output any more, as of a pipe whose reader has ended.
    fn is_output_closed(&self) -> bool;
}
