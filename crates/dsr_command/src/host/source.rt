//! Files of the system that are read, and standard input.
ghost use Rattle.std.specs.Prelude.{◌≡◌, false, IfOk};

use super::{HostPermit, identity_of};
use crate::file_source::FileSource;
use crate::identity::FileIdentity;
use crate::world::OpenFault;
use dsr_cells::NoMemory;
use dsr_file::{Failed, FromRead, Source};
use std::fs::{File, Files};
use std::io::{ErrorKind, Read, StdinLock};
use std::{fs, io};

/// What is read.
#[derive(Drop)]
enum HostReader {
    /// An ordinary file, which is opened by its first read if this name is still that of the same file.
    Waiting(HostRuntime, String, FileIdentity),
    /// An open file.
    Open(File),
    /// A file that was closed, at its end or since a read failed. Nothing follows.
    Closed,
    /// Standard input. It is boxed since it contains a buffer of 8 KiB, and a source is moved to its thread and back by value.
    Standard(Box<StdinLock<'static>>),
}

/// Opens the file of this name, if it is this one.
fn open_again(rt: HostRuntime, name: &str, identity: FileIdentity) -> io::Result<File> {
    let file = fs::open(&rt, name)?;
    if identity_of(&file.metadata()?) == identity {
        Ok(file)
    } else {
        Err(io::Error::from(ErrorKind::NotFound))
    }
}

impl Read for HostReader {
    fn read(&mut self, piece: &mut [u8]) -> io::Result<usize> {
        if let HostReader::Waiting(rt, name, identity) = self {
            *self = HostReader::Open(open_again(*rt, name.as_str(), *identity)?);
        }
        let answer = match self {
            HostReader::Open(file) => file.read(piece),
            HostReader::Standard(input) => return input.read(piece),
            _ => return Ok(0),
        };
        if !matches!(answer, Ok(1..)) {
            *self = HostReader::Closed;
        }
        answer
    }
}

/// The source of a file or of standard input.
#[derive(Drop)]
pub struct HostSource {
    source: FromRead<HostReader>,
    size: Option<u64>,
    identity: Option<FileIdentity>,
}

impl HostSource {
    /// The source of the file of this name.
    ///
    /// # Errors
    ///
    /// `Missing`: it cannot be opened. `Memory`: out of memory.
    pub(super) fn open(
        rt: HostRuntime,
        permit: &HostPermit,
        name: &str,
    ) -> Result<HostSource, OpenFault>
        ensures { IfOk result (λ s. (⟦<HostSource as Source>⟧.told s).failed ≡ false) }
    {
        let Ok(file) = fs::open(&rt, name) else {
            return Err(OpenFault::Missing);
        };
        let metadata = file.metadata().ok();
        let identity = metadata.as_ref().map(identity_of);
        let size = match &metadata {
            Some(metadata) if metadata.is_file() => Some(metadata.len()),
            _ => None,
        };
        let reader = match (permit, size, identity) {
            (HostPermit::InTurn, Some(_), Some(identity)) => {
                let name = String::from_str(rt.alloc(), name).map_err(|_| OpenFault::Memory)?;
                HostReader::Waiting(rt, name, identity)
            }
            _ => HostReader::Open(file),
        };
        Ok(HostSource {
            source: FromRead::new(reader),
            size,
            identity,
        })
    }

    /// The source of standard input.
    ///
    /// # Errors
    ///
    /// Out of memory.
    pub(super) fn standard(rt: HostRuntime) -> Result<HostSource, NoMemory>
        ensures { IfOk result (λ s. (⟦<HostSource as Source>⟧.told s).failed ≡ false) }
    {
        let reader = Box::new(rt.alloc(), rt.reader()).map_err(|_| NoMemory)?;
        let metadata = rt.metadata("/dev/stdin").ok();
        Ok(HostSource {
            source: FromRead::new(HostReader::Standard(reader)),
            size: None,
            identity: metadata.as_ref().map(identity_of),
        })
    }
}

impl Source for HostSource {
    ghost told = { λ s. ⟦<FromRead<HostReader> as Source>⟧.told s.source };

    fn read(&mut self, piece: &mut [u8]) -> Result<usize, Failed> {
        self.source.read(piece)
    }

    fn failed(&self) -> bool {
        self.source.failed()
    }
}

impl FileSource for HostSource {
    ghost file = { λ s. s.identity };

    fn identity(&self) -> Option<FileIdentity> {
        self.identity
    }

    fn size(&self) -> Option<u64> {
        self.size
    }
}
