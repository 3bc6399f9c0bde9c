//! Files in memory.
use dsr_cells::Text;
use dsr_command::FileIdentity;

/// A file in memory.
pub struct MemoryFile {
    /// Its name.
    pub name: Text,
    /// Its bytes.
    pub bytes: Vec<u8>,
    /// Which file it is. Names may have one file.
    pub identity: FileIdentity,
    /// Whether it can be opened.
    pub opens: bool,
    /// Whether it is an ordinary file, and no pipe.
    pub is_ordinary: bool,
}

/// Written out, so that dropping one is a call: a derived drop is proved anew wherever it happens.
impl Drop for MemoryFile {
    fn drop(self) {
        let MemoryFile {
            name: _,
            bytes: _,
            identity: _,
            opens: _,
            is_ordinary: _,
        } = self;
    }
}
