//! Sources that are files.
use crate::identity::FileIdentity;
use dsr_file::Source;

/// The source of an open file, or of standard input.
pub trait FileSource: Source {
    ghost use Rattle.std.specs.Prelude.{◌≡◌, Option};
    ghost use Rattle.dsr_command.specs.declared.identity.FileIdentity.{FileIdentity};

    /// Which file it is, if that is known.
    ghost file: { Self → Option FileIdentity };

    /// Which file it is, if that is known.
    fn identity(&self) -> Option<FileIdentity>
        ensures { result ≡ file self.now };

    /// Its size in bytes, if that is known; a pipe's is not.
    fn size(&self) -> Option<u64>;
}
