//! Which file of the system an open file or a name is, and what a name is as a place for an output.

/// A file of the system, whatever its names are.
#[derive(Clone, Copy, PartialEq, Eq)]
pub struct FileIdentity {
    /// The device that it is on.
    pub device: u64,
    /// Its number there.
    pub inode: u64,
}

/// What a name is as a place for an output.
#[derive(Clone, Copy, PartialEq, Eq)]
pub enum Place {
    /// Nothing has it.
    Free,
    /// An ordinary file, which this is, has it, or a link to one.
    Ordinary(FileIdentity),
    /// Something else has it, such as a link that leads to nothing, or it is no name.
    Other,
}
