//! The world in memory.
ghost use Rattle.std.specs.Prelude.{◌≡◌, ◌++◌, ◌∷◌, [], false, true, map, Some, IfOk, OnOk};
ghost use Rattle.std.specs.Option.{option_map};
ghost use Rattle.std.specs.String.{string_bytes};
ghost use Rattle.dsr_command.specs.World.{IsSourceOf};
ghost use Rattle.dsr_memory.specs.Disks.{disk_of, file_of};

use crate::fault::Fault;
use crate::file::MemoryFile;
use crate::outlet::MemoryOutlet;
use crate::quiet::Quiet;
use crate::source::MemorySource;
use dsr_cells::{NoMemory, Text};
use dsr_command::{
    Asked, FileIdentity, FileSource, Link, Names, OpenFault, Place, ReportWorld, StatementWorld,
    WordsFault, World,
};
use dsr_io::{Failed, Outlet, Source};
use std::alloc::Global;
use std::sync::atomic::{AtomicU64, Ordering};

/// Words and files in memory, and the call that fails.
pub struct MemoryWorld {
    alloc: Global,
    fault: Fault,
    words: Names,
    is_utf8: bool,
    files: Vec<MemoryFile>,
    input: Vec<u8>,
    input_file: Option<FileIdentity>,
    openings: AtomicU64,
    parts: u64,
    failed: bool,
}

/// Written out, so that dropping one is a call: a derived drop is proved anew wherever it happens.
impl Drop for MemoryWorld {
    fn drop(self) {
        let MemoryWorld {
            alloc: _,
            fault: _,
            words: _,
            is_utf8: _,
            files: _,
            input: _,
            input_file: _,
            openings: _,
            parts: _,
            failed: _,
        } = self;
    }
}

/// The leave to open files.
#[derive(Drop)]
pub struct MemoryPermit;

impl MemoryWorld {
    /// A world without words and files, in which this call fails. Standard input is empty.
    pub fn new(alloc: Global, fault: Fault) -> MemoryWorld {
        MemoryWorld {
            alloc,
            fault,
            words: Names::new(alloc),
            is_utf8: true,
            files: Vec::new(alloc),
            input: Vec::new(alloc),
            input_file: None,
            openings: AtomicU64::new(0),
            parts: 0,
            failed: false,
        }
    }

    /// Adds a word.
    ///
    /// # Errors
    ///
    /// Out of memory.
    pub fn add_word(&mut self, word: &str) -> Result<(), NoMemory>
        ensures { OnOk result (self.new.words ≡ self.old.words ++ word.now ∷ []) }
    {
        let word = Text::copy_of(self.alloc, word)?;
        self.words.push(word).map_err(|_| NoMemory)
    }

    /// Takes away that the words are UTF-8.
    pub fn spoil_words(&mut self)
        ensures { self.new.is_utf8 ≡ false }
    {
        self.is_utf8 = false;
    }

    /// Adds an ordinary file, which is no other one. Of files of one name, the last that was added counts.
    ///
    /// # Errors
    ///
    /// Out of memory.
    pub fn add_file(&mut self, name: &str, bytes: &[u8]) -> Result<(), NoMemory>
        ensures files { OnOk result ((disk_of self.new).files name.now ≡ Some bytes.now) }
    {
        let inode = self.files.len() as u64;
        let file = new_file(self.alloc, name, bytes, inode)?;
        self.add(file)
    }

    /// Adds a file. Of files of one name, the last that was added counts.
    ///
    /// # Errors
    ///
    /// Out of memory.
    pub fn add(&mut self, file: MemoryFile) -> Result<(), NoMemory>
        ensures { OnOk result (self.new.files.items ≡ file ∷ self.old.files.items) }
    {
        self.files.insert(0, file).map_err(|_| NoMemory)
    }

    /// Gives standard input these bytes.
    ///
    /// # Errors
    ///
    /// Out of memory.
    pub fn set_input(&mut self, bytes: &[u8]) -> Result<(), NoMemory>
        ensures { OnOk result (self.new.input.items ≡ bytes.now) }
    {
        self.input = Vec::from_slice(self.alloc, bytes)?;
        Ok(())
    }

    /// How many new files wait beside others.
    pub fn parts(&self) -> u64
        ensures { result ≡ (disk_of self.now).parts }
    {
        self.parts
    }

    /// The file of this name, if there is one.
    pub fn file(&self, name: &str) -> Option<&MemoryFile>
        ensures { option_map (λ f. f.now) result ≡ file_of self.now.files.items name.now }
    {
        self.files.iter().find(|file| file.name.as_str() == name)
    }

    /// Whether these are all files, with these bytes.
    pub(crate) fn has_only(&self, files: &[(&str, &str)]) -> bool {
        for (name, bytes) in files {
            match self.file(name) {
                Some(file) if file.bytes.as_slice() == bytes.as_bytes() => {}
                _ => return false,
            }
        }
        self.files.len() == files.len()
    }

    /// An output on which the writes and flushes fail that do on a new file.
    pub fn output(&self) -> MemoryOutlet
        ensures { ⟦<MemoryOutlet as Outlet>⟧.told result
            ≡ record {
              contents = Some [];
              taken = 0;
              failed = false;
              flushes = 0;
              unflushed = false;
            } }
    {
        MemoryOutlet::new(
            self.alloc,
            self.fault.sound_writes(),
            self.fault != Fault::Flush,
        )
    }

    /// A source of these bytes, at the opening of this number.
    fn source(
        &self,
        bytes: &[u8],
        identity: Option<FileIdentity>,
        opening: u64,
    ) -> Result<MemorySource, NoMemory>
        ensures { IfOk result (IsSourceOf ⟦<MemorySource as Source>⟧.told
            ⟦<MemorySource as FileSource>⟧.file bytes.now identity) }
    {
        if self.fault.is_opening(opening) {
            return Err(NoMemory);
        }
        let bytes = Vec::from_slice(self.alloc, bytes)?;
        Ok(MemorySource::new(bytes, self.fault.sound_reads(opening), identity))
    }

    /// The number of the next opening.
    fn next_opening(&self) -> u64 {
        self.openings.fetch_add(1, Ordering::SeqCst)
    }
}

/// Copies words.
fn strings_of(alloc: Global, words: &Names) -> Result<Vec<String>, NoMemory>
    ensures { IfOk result (λ v. map string_bytes v.items ≡ words.now) }
{
    let mut strings = Vec::new(alloc);
    for word in words.as_slice() {
        let string = String::from_str(alloc, word.as_str())?;
        strings.push(string).map_err(|_| NoMemory)?;
    }
    Ok(strings)
}

/// An ordinary file of this name and these bytes, which is no other file.
fn new_file(alloc: Global, name: &str, bytes: &[u8], inode: u64) -> Result<MemoryFile, NoMemory>
    ensures name { IfOk result (λ f. f.name ≡ name.now) }
    ensures bytes { IfOk result (λ f. f.bytes.items ≡ bytes.now) }
    ensures opens { IfOk result (λ f. f.opens ≡ true) }
{
    let name = Text::copy_of(alloc, name)?;
    match Vec::from_slice(alloc, bytes) {
        Ok(bytes) => Ok(MemoryFile {
            name,
            bytes,
            identity: FileIdentity { device: 1, inode },
            opens: true,
            is_ordinary: true,
        }),
        Err(_) => {
            drop(name);
            Err(NoMemory)
        }
    }
}

impl World for MemoryWorld {
    type Reader = MemorySource;

    type New = MemoryOutlet;

    type Permit = MemoryPermit;

    ghost disk = { λ w. Some (disk_of w) };

    fn words(&self) -> Result<Vec<String>, WordsFault> {
        if self.fault == Fault::Words {
            return Err(WordsFault::Memory);
        }
        if !self.is_utf8 {
            return Err(WordsFault::NotUtf8);
        }
        match strings_of(self.alloc, &self.words) {
            Ok(words) => Ok(words),
            Err(NoMemory) => Err(WordsFault::Memory),
        }
    }

    fn open(&self, _permit: &MemoryPermit, name: &str) -> Result<MemorySource, OpenFault> {
        let opening = self.next_opening();
        let Some(file) = self.file(name) else {
            return Err(OpenFault::Missing);
        };
        if !file.opens {
            return Err(OpenFault::Missing);
        }
        match self.source(file.bytes.as_slice(), Some(file.identity), opening) {
            Ok(source) => Ok(source),
            Err(NoMemory) => Err(OpenFault::Memory),
        }
    }

    fn standard_input(&self, _permit: &MemoryPermit) -> Result<MemorySource, NoMemory> {
        self.source(self.input.as_slice(), self.input_file, self.next_opening())
    }

    fn place(&self, name: &str) -> Place {
        match self.file(name) {
            None => Place::Free,
            Some(file) => {
                if file.is_ordinary {
                    Place::Ordinary(file.identity)
                } else {
                    Place::Other
                }
            }
        }
    }

    fn link(&self, _name: &str) -> Result<Link, NoMemory> {
        if self.fault == Fault::Link {
            return Err(NoMemory);
        }
        Ok(Link::Plain)
    }

    fn random(&mut self) -> Result<u64, Failed> {
        if self.fault == Fault::Random {
            self.failed = true;
            return Err(Failed);
        }
        Ok(self.parts)
    }

    fn create(&mut self, name: Text) -> Result<MemoryOutlet, Failed> {
        if self.fault == Fault::Create || self.parts == u64::MAX {
            self.failed = true;
            return Err(Failed);
        }
        self.parts += 1;
        Ok(self.output().named(name))
    }

    fn sync(&mut self, new: &mut MemoryOutlet) -> Result<(), Failed> {
        if self.fault == Fault::Sync {
            self.failed = true;
            return Err(Failed);
        }
        new.sync();
        Ok(())
    }

    fn rename(&mut self, new: &MemoryOutlet, name: &str) -> Result<(), Failed> {
        if self.fault == Fault::Rename {
            self.failed = true;
            return Err(Failed);
        }
        let inode = self.files.len() as u64;
        let Ok(file) = new_file(self.alloc, name, new.bytes(), inode) else {
            self.failed = true;
            return Err(Failed);
        };
        if self.files.insert(0, file).is_err() {
            self.failed = true;
            return Err(Failed);
        }
        self.parts = self.parts.saturating_sub(1);
        Ok(())
    }

    fn remove(&mut self, new: MemoryOutlet) {
        drop(new);
        self.parts = self.parts.saturating_sub(1);
    }
}

impl ReportWorld for MemoryWorld {
    type Teller = Quiet;

    fn open_layout(&self, _asked: &Asked, name: &str) -> Result<MemorySource, OpenFault> {
        self.open(&MemoryPermit, name)
    }

    fn permit_after(&self, _layout: MemorySource) -> MemoryPermit {
        MemoryPermit
    }

    fn permit_without(&self, _asked: &Asked) -> MemoryPermit {
        MemoryPermit
    }

    fn teller(&self, _asked: &Asked) -> Quiet {
        Quiet
    }

    fn is_terminal(&self) -> bool {
        false
    }
}

impl StatementWorld for MemoryWorld {
    fn permit(&self) -> MemoryPermit {
        MemoryPermit
    }
}
