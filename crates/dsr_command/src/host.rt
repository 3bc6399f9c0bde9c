//! The words and the files of the system, of which std tells nothing. How a file is read in its turn (`source`), what a name is as
//! a place for an output, that a new file is removed if it cannot be opened once more (`new`), and which numbers of open files are
//! held, is decided here; no more.
ghost use Rattle.std.specs.Prelude.{None};

mod new;
mod source;

use crate::command::Asked;
use crate::identity::{FileIdentity, Place};
use crate::link::Link;
use crate::report_world::ReportWorld;
use crate::statement_world::StatementWorld;
use crate::world::{OpenFault, WordsFault, World};
use dsr_cells::{NoMemory, Text};
use dsr_file::Failed;
use new::HostNew;
use source::HostSource;
use std::fs::{File, Files, Metadata};
use std::io::{ErrorKind, IsTerminal};
use std::os::fd::AsRawFd;
use std::os::unix::fs::MetadataExt;
use std::random::RandomSource;
use std::{env, fs};

/// The words and the files of the system.
#[derive(Drop)]
pub struct Host {
    rt: HostRuntime,
    /// The root directory, once for each number of standard input, output or error that was closed when the program began.
    _held: [Option<File>; 3],
}

/// The leave to open files, and when they are open.
#[derive(Drop)]
pub enum HostPermit {
    /// All from when they are named.
    AtOnce,
    /// An ordinary file from its first read to its end, and anything else from when it is named, since it can be read only once.
    InTurn,
}

/// The root directory, if the lowest number that is free is that of standard input, output or error: so no file that is opened later
/// gets it, into which what is printed would be written. A directory can be neither read nor written.
fn hold(rt: HostRuntime) -> Option<File> {
    let root = File::open(&rt, "/").ok()?;
    if root.as_raw_fd() > 2 {
        return None;
    }
    Some(root)
}

/// Which file has this metadata.
fn identity_of(metadata: &Metadata) -> FileIdentity {
    FileIdentity {
        device: metadata.dev(),
        inode: metadata.ino(),
    }
}

impl World for Host {
    type Reader = HostSource;

    type New = HostNew;

    type Permit = HostPermit;

    ghost disk = { λ _. None };

    fn words(&self) -> Result<Vec<String>, WordsFault> {
        match env::args(&self.rt) {
            Ok(mut words) => {
                let _name = words.next();
                words
                    .collect(self.rt.alloc())
                    .map_err(|_| WordsFault::Memory)
            }
            Err(error) if error.kind() == ErrorKind::OutOfMemory => Err(WordsFault::Memory),
            Err(_) => Err(WordsFault::NotUtf8),
        }
    }

    fn open(&self, permit: &HostPermit, name: &str) -> Result<HostSource, OpenFault> {
        HostSource::open(self.rt, permit, name)
    }

    fn standard_input(&self, _permit: &HostPermit) -> Result<HostSource, NoMemory> {
        HostSource::standard(self.rt)
    }

    fn place(&self, name: &str) -> Place {
        match self.rt.metadata(name) {
            Ok(metadata) if metadata.is_file() => Place::Ordinary(identity_of(&metadata)),
            Err(error) if error.kind() == ErrorKind::NotFound && self.is_free(name) => Place::Free,
            _ => Place::Other,
        }
    }

    fn link(&self, name: &str) -> Result<Link, NoMemory> {
        match self.rt.symlink_metadata(name) {
            Ok(link) if link.is_symlink() && self.is_descriptor(&link) => Ok(Link::Barred),
            Ok(link) if link.is_symlink() => self.read_link(name),
            _ => Ok(Link::Plain),
        }
    }

    fn random(&mut self) -> Result<u64, Failed> {
        let mut bytes = [0u8; 8];
        match self.rt.fill_bytes(&mut bytes) {
            Ok(()) => Ok(u64::from_le_bytes(bytes)),
            Err(_) => Err(Failed),
        }
    }

    fn create(&mut self, name: Text) -> Result<HostNew, Failed> {
        HostNew::create(self.rt, name)
    }

    fn sync(&mut self, new: &mut HostNew) -> Result<(), Failed> {
        new.file.sync_all().map_err(|_| Failed)
    }

    fn rename(&mut self, new: &HostNew, name: &str) -> Result<(), Failed> {
        fs::rename(&self.rt, new.name.as_str(), name).map_err(|_| Failed)
    }

    fn remove(&mut self, new: HostNew) {
        let _ = fs::remove_file(&self.rt, new.name.as_str());
    }
}

impl Host {
    /// The system of this handle. It comes before any file is opened.
    pub fn new(rt: HostRuntime) -> Host {
        Host {
            rt,
            _held: [hold(rt), hold(rt), hold(rt)],
        }
    }

    /// The link of this name.
    fn read_link(&self, name: &str) -> Result<Link, NoMemory> {
        match self.rt.read_link(self.rt.alloc(), name) {
            Ok(text) => Ok(Link::To(Text::of_string(self.rt.alloc(), text.into_string())?)),
            Err(error) if error.kind() == ErrorKind::OutOfMemory => Err(NoMemory),
            Err(_) => Ok(Link::Barred),
        }
    }

    /// Whether a link is among those that the system makes of what a process has open, as the one to which `/dev/stdout` leads.
    fn is_descriptor(&self, link: &Metadata) -> bool {
        match self.rt.symlink_metadata("/proc/self") {
            Ok(process) => process.dev() == link.dev(),
            Err(_) => false,
        }
    }

    /// Whether a name that leads to no file is a name that nothing has, not even a link.
    fn is_free(&self, name: &str) -> bool {
        !name.is_empty() && self.rt.symlink_metadata(name).is_err()
    }
}

impl ReportWorld for Host {
    type Teller = HostRuntime;

    fn open_layout(&self, _asked: &Asked, name: &str) -> Result<HostSource, OpenFault> {
        self.open(&HostPermit::AtOnce, name)
    }

    fn permit_after(&self, _layout: HostSource) -> HostPermit {
        HostPermit::AtOnce
    }

    fn permit_without(&self, _asked: &Asked) -> HostPermit {
        HostPermit::AtOnce
    }

    fn is_terminal(&self) -> bool {
        self.rt.stderr().is_terminal()
    }

    fn teller(&self, _asked: &Asked) -> HostRuntime {
        self.rt
    }
}

impl StatementWorld for Host {
    fn permit(&self) -> HostPermit {
        HostPermit::InTurn
    }
}
