//! What the program that reads reports asks of its surroundings beside the files.
use crate::command::Asked;
use crate::world::{OpenFault, World};
use std::io::Eprint;
use std::time::Clock;

/// A world with a layout's file, which is read before the report's files are opened, and with progress.
pub trait ReportWorld: World {
    ghost use Rattle.std.specs.Prelude.{◌≡◌, false, true, IfOk, None, Some};
    ghost use Rattle.std.specs.Io.KnownBytes.{IsAtEnd};
    ghost use Rattle.dsr_command.specs.World.{Asks, Opens, WhereTold};

    /// The time, and what writes the lines of progress.
    type Teller: Clock + Eprint + Copy + Drop + Send + 'static;

    /// Opens the layout's file, which the words name, and no other.
    ///
    /// # Errors
    ///
    /// `Missing`: it cannot be opened. `Memory`: out of memory.
    fn open_layout(&self, asked: &Asked, name: &str) -> Result<Self::Reader, OpenFault>
        requires asked { Asks (Self.disk self.now) asked.now }
        requires named { asked.now.layout ≡ Some name.now }
        ensures unfailed { IfOk result (λ r. (Self.Reader.told r).failed ≡ false) }
        ensures opened { WhereTold (Self.disk self.now) (λ d. Opens (Self.Reader.told)
            (Self.Reader.file) d name.now result) };

    /// The leave to open the files that the words ask for, after their layout's file was read to its end.
    fn permit_after(&self, layout: Self::Reader) -> Self::Permit
        requires { IsAtEnd (Self.Reader.told layout).remaining };

    /// The leave to open the files that the words ask for, which name no layout.
    fn permit_without(&self, asked: &Asked) -> Self::Permit
        requires asked { Asks (Self.disk self.now) asked.now }
        requires unnamed { asked.now.layout ≡ None };

    /// Whether what tells the progress writes to a terminal.
    fn is_terminal(&self) -> bool;

    /// What tells the progress, which the words ask for.
    fn teller(&self, asked: &Asked) -> Self::Teller
        requires asked { Asks (Self.disk self.now) asked.now }
        requires progress { asked.now.progress ≡ true };
}
