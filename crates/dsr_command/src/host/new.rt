//! New files of the system.
ghost use Rattle.std.specs.Prelude.{◌≡◌, false, IfOk};

use crate::new_outlet::NewOutlet;
use dsr_cells::Text;
use dsr_file::Failed;
use dsr_intake::{Outlet, ToWrite};
use std::fs;
use std::fs::File;

/// A new file, opened once more to be synced, and its name.
#[derive(Drop)]
pub struct HostNew {
    out: ToWrite<File>,
    pub(super) file: File,
    pub(super) name: Text,
}

impl HostNew {
    /// Creates the file of this name, which nothing has.
    ///
    /// # Errors
    ///
    /// `Failed`: it cannot be created.
    pub(super) fn create(rt: HostRuntime, name: Text) -> Result<HostNew, Failed>
        ensures sound { IfOk result (λ n. (⟦<HostNew as Outlet>⟧.told n).failed ≡ false) }
        ensures empty { IfOk result (λ n. (⟦<HostNew as Outlet>⟧.told n).taken ≡ 0) }
        ensures named { IfOk result (λ n. ⟦<HostNew as NewOutlet>⟧.name n ≡ name) }
    {
        let Ok(out) = File::create_new(&rt, name.as_str()) else {
            return Err(Failed);
        };
        match out.try_clone() {
            Ok(file) => Ok(HostNew {
                out: ToWrite::new(out),
                file,
                name,
            }),
            Err(_) => {
                drop(out);
                let _ = fs::remove_file(&rt, name.as_str());
                Err(Failed)
            }
        }
    }
}

impl Outlet for HostNew {
    ghost told = { λ n. ⟦<ToWrite<File> as Outlet>⟧.told n.out };

    fn write(&mut self, piece: &[u8]) -> Result<usize, Failed> {
        self.out.write(piece)
    }

    fn flush(&mut self) -> Result<(), Failed> {
        self.out.flush()
    }

    fn failed(&self) -> bool {
        self.out.failed()
    }
}

impl NewOutlet for HostNew {
    ghost name = { λ n. n.name };

    ghost synced = { λ n. (⟦<ToWrite<File> as Outlet>⟧.told n.out).contents };
}
