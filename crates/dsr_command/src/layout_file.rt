//! Reading a layout's file, for the options of a run.
ghost use Rattle.std.specs.Prelude.{◌≡◌, IfOk, IfErr, MatchResult, None};
ghost use Rattle.dsr_command.specs.World.{Asks, WhereTold};
ghost use Rattle.dsr_command.specs.LayoutFile.{AreHad, IsLayoutAnswer, IsLayoutRefused, IsReadError, IsTaken, sealing_of};

use crate::command::Asked;
use crate::file_source::FileSource;
use crate::identity::FileIdentity;
use crate::report_world::ReportWorld;
use crate::sealing::{Sealing, sealing_over, sealing_without};
use crate::world::OpenFault;
use dsr_file::{Failed, Source};
use dsr_intake::Options;
use dsr_records::{Layout, LayoutError};
use std::alloc::Global;

/// Why there is no layout.
#[derive(Clone, Copy, PartialEq, Eq)]
pub enum LayoutReadError {
    /// Its file cannot be opened.
    CannotOpen,
    /// A read failed.
    Read,
    /// The bytes are no layout; this is their first fault.
    Bad(LayoutError),
    /// Memory was refused.
    Memory,
}

/// The options of a run, and the leave to open its files.
#[derive(Drop)]
pub struct RunOptions<P> {
    /// The options, in a box, since a layout takes about 2 kB.
    pub options: Box<Options>,
    /// The leave to open the files.
    pub permit: P,
    /// Which file the layout was read from, if there is one and it is known.
    pub layout: Option<FileIdentity>,
    /// The seal that is asked for, if one is.
    pub seal: Option<Sealing>,
}

/// The options that the words ask for, with the layout that its file gives, or the standard one if none is named. If a seal is
/// asked for, it is of the bytes of that file.
///
/// # Errors
///
/// `CannotOpen` and `Read`: the layout's file cannot be opened or read. `Bad`: it is no layout, by its first fault. `Memory`:
/// out of memory.
pub fn read_options<W: ReportWorld>(
    alloc: Global,
    world: &W,
    asked: &Asked,
) -> Result<RunOptions<W::Permit>, LayoutReadError>
    requires { Asks (W.disk world.now) asked.now }
    ensures { WhereTold (W.disk world.now) (λ d. MatchResult result
        (AreHad d asked.now) (IsLayoutRefused W.Reader.told d asked.now.layout)) }
{
    match &asked.layout {
        Some(name) => {
            let reader = match world.open_layout(asked, name.as_str()) {
                Ok(reader) => reader,
                Err(OpenFault::Missing) => return Err(LayoutReadError::CannotOpen),
                Err(OpenFault::Memory) => return Err(LayoutReadError::Memory),
            };
            let mut reader = reader;
            let file = reader.identity();
            let (layout, seal) = match read_layout(alloc, &mut reader, asked.seal) {
                Ok(had) => had,
                Err(error) => return Err(error),
            };
            let permit = world.permit_after(reader);
            with_options(alloc, asked, layout, permit, file, seal)
        }
        None => with_options(
            alloc,
            asked,
            Layout::standard(),
            world.permit_without(asked),
            None,
            sealing_without(asked.seal),
        ),
    }
}

/// The options with this layout.
fn with_options<P: Drop>(
    alloc: Global,
    asked: &Asked,
    layout: Layout,
    permit: P,
    file: Option<FileIdentity>,
    seal: Option<Sealing>,
) -> Result<RunOptions<P>, LayoutReadError>
    ensures options { IfOk result (λ o. o.options.value ≡ record {
      capacity = asked.now.capacity;
      max_reads = asked.now.max_reads;
      layout = layout;
    }) }
    ensures had { IfOk result (λ o. (o.layout ≡ file) × (o.seal ≡ seal)) }
    ensures memory { IfErr result (λ e. e ≡ LayoutReadError.Memory) }
{
    let options = Options {
        capacity: asked.capacity,
        max_reads: asked.max_reads,
        layout,
    };
    match Box::new(alloc, options) {
        Ok(options) => Ok(RunOptions {
            options,
            permit,
            layout: file,
            seal,
        }),
        Err(_) => Err(LayoutReadError::Memory),
    }
}

/// The most bytes that are read: one more than a layout may have.
const MOST_BYTES: usize = 65_537;

/// The layout that the reader's bytes spell, and the seal over them that is asked for. At most 65,537 bytes are read, in reads
/// of which every one but the last gives at least one byte.
///
/// # Errors
///
/// `Read`: a read failed. `Bad`: the bytes are no layout, by their first fault. `Memory`: out of memory.
fn read_layout<R: Source>(
    alloc: Global,
    reader: &mut R,
    seal: bool,
) -> Result<(Layout, Option<Sealing>), LayoutReadError>
    ensures { IsLayoutAnswer seal (R.told reader.old) (R.told reader.new) result }
{
    let bytes = read_bytes(alloc, reader)?;
    match Layout::read(&bytes) {
        Ok(layout) => Ok((layout, sealing_over(seal, &bytes))),
        Err(error) => Err(LayoutReadError::Bad(error)),
    }
}

/// All bytes of the reader, or the first 65,537 if there are more.
fn read_bytes<R: Source>(alloc: Global, reader: &mut R) -> Result<Vec<u8>, LayoutReadError>
    ensures taken { IfOk result (λ v. IsTaken (R.told reader.old).remaining
        (R.told reader.new).remaining v.items) }
    ensures refused { IfErr result (IsReadError (R.told reader.new)) }
{
    let mut bytes = Vec::new(alloc);
    let mut piece = [0; 4096];
    while bytes.len() < MOST_BYTES {
        let room = (MOST_BYTES - bytes.len()).min(4096);
        let count = match reader.read(&mut piece[..room]) {
            Ok(count) => count,
            Err(Failed) => return Err(LayoutReadError::Read),
        };
        if count == 0 {
            return Ok(bytes);
        }
        if bytes.extend_from_slice(&piece[..count]).is_err() {
            return Err(LayoutReadError::Memory);
        }
    }
    Ok(bytes)
}
