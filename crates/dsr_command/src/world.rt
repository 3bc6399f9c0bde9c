//! What a program asks of its surroundings.
use crate::file_source::FileSource;
use crate::identity::Place;
use crate::link::Link;
use crate::new_outlet::NewOutlet;
use dsr_cells::{NoMemory, Text};
use dsr_file::Failed;

/// Why there are no words.
#[derive(Clone, Copy, PartialEq, Eq)]
pub enum WordsFault {
    /// An argument is not UTF-8.
    NotUtf8,
    /// Memory was refused.
    Memory,
}

/// Why a file is not opened.
#[derive(Clone, Copy, PartialEq, Eq)]
pub enum OpenFault {
    /// It is not there, or cannot be opened.
    Missing,
    /// Memory was refused.
    Memory,
}

/// The words and the files of a program. Its body is generic over them, and what is proved of it in a world that tells what it
/// has holds of the body that runs on the system's files, which tell nothing.
pub trait World {
    ghost use Rattle.std.specs.Prelude.{◌≡◌, false, map, option_map, Option, IfOk, MatchResult, Some};
    ghost use Rattle.std.specs.String.{string_bytes};
    ghost use Rattle.dsr_command.specs.World.{Disk, WhereTold, LacksWords, Opens, IsSourceOf, Creates, Puts, failing, removed};

    /// A file that is read.
    type Reader: FileSource + Send + Drop + 'static;

    /// A new file that is written.
    type New: NewOutlet + Drop;

    /// The leave to open the files that the words name.
    type Permit: Drop;

    /// What it has, if it tells.
    ghost disk: { Self → Option Disk };

    /// The words after the program's name.
    ///
    /// # Errors
    ///
    /// `NotUtf8`: one is not UTF-8. `Memory`: out of memory.
    fn words(&self) -> Result<Vec<String>, WordsFault>
        ensures { WhereTold (disk self.now) (λ d. MatchResult result
            (λ v. d.words ≡ Some (map string_bytes v.items)) (LacksWords d)) };

    /// Opens the file of this name.
    ///
    /// # Errors
    ///
    /// `Missing`: it cannot be opened. `Memory`: out of memory.
    fn open(&self, permit: &Self::Permit, name: &str) -> Result<Self::Reader, OpenFault>
        ensures unfailed { IfOk result (λ r. (Self.Reader.told r).failed ≡ false) }
        ensures opened { WhereTold (disk self.now) (λ d. Opens (Self.Reader.told)
            (Self.Reader.file) d name.now result) };

    /// Opens standard input.
    ///
    /// # Errors
    ///
    /// Out of memory.
    fn standard_input(&self, permit: &Self::Permit) -> Result<Self::Reader, NoMemory>
        ensures unfailed { IfOk result (λ r. (Self.Reader.told r).failed ≡ false) }
        ensures opened { WhereTold (disk self.now) (λ d. IfOk result
            (IsSourceOf (Self.Reader.told) (Self.Reader.file) d.input d.input_file)) };

    /// What the name is as a place for an output, its links followed.
    fn place(&self, name: &str) -> Place
        ensures { WhereTold (disk self.now) (λ d. result ≡ d.place name.now) };

    /// What the name is as a link.
    ///
    /// # Errors
    ///
    /// Out of memory.
    fn link(&self, name: &str) -> Result<Link, NoMemory>
        ensures { WhereTold (disk self.now) (λ d. IfOk result (λ link. link ≡ d.link name.now)) };

    /// A random number.
    ///
    /// # Errors
    ///
    /// `Failed`: there is none.
    fn random(&mut self) -> Result<u64, Failed>
        ensures { MatchResult result (λ _. disk self.new ≡ disk self.old)
            (λ _. disk self.new ≡ option_map failing (disk self.old)) };

    /// Creates a new, empty file of this name, which nothing has.
    ///
    /// # Errors
    ///
    /// `Failed`: it cannot be created.
    fn create(&mut self, name: Text) -> Result<Self::New, Failed>
        ensures sound { IfOk result (λ n. (Self.New.told n).failed ≡ false) }
        ensures empty { IfOk result (λ n. (Self.New.told n).taken ≡ 0) }
        ensures named { IfOk result (λ n. Self.New.name n ≡ name) }
        ensures created { Creates (Self.New.told) (disk self.old) (disk self.new) result };

    /// Syncs a new file to the disk.
    ///
    /// # Errors
    ///
    /// `Failed`: it could not be synced.
    fn sync(&mut self, new: &mut Self::New) -> Result<(), Failed>
        ensures same { Self.New.told new.new ≡ Self.New.told new.old }
        ensures synced { MatchResult result (λ _. (disk self.new ≡ disk self.old)
            × (Self.New.synced new.new ≡ (Self.New.told new.new).contents))
            (λ _. disk self.new ≡ option_map failing (disk self.old)) };

    /// Gives a new file, of which all bytes were synced, this name, which a file may have that is gone then.
    ///
    /// # Errors
    ///
    /// `Failed`: it has its own name still.
    fn rename(&mut self, new: &Self::New, name: &str) -> Result<(), Failed>
        requires { Self.New.synced new.now ≡ (Self.New.told new.now).contents }
        ensures { Puts (Self.New.told new.now).contents (disk self.old) (disk self.new) name.now
            result };

    /// Removes a new file.
    fn remove(&mut self, new: Self::New)
        ensures { disk self.new ≡ option_map removed (disk self.old) };
}
