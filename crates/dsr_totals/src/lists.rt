//! The names of paid statements in lists.
ghost use Rattle.std.specs.Prelude.{◌≡◌, ◌==◌, ◌<◌, ◌++◌, ◌∷◌, [], length, map, IfOk, IfSome, MatchResult, IsUtf8};
ghost use Rattle.std.specs.List.{position};
ghost use Rattle.dsr_command.specs.World.{WhereTold};
ghost use Rattle.dsr_totals.specs.Lists.{HasBadName, name_end, names_in};
ghost use Rattle.dsr_totals.specs.Steps.{AreListed, AreUnlisted, GaveAll, IsCutAt, IsListFault, IsListRead, IsUnread};

use dsr_cells::Text;
use dsr_command::{FileIdentity, FileSource, Names, OpenError, StatementWorld, unopened};
use dsr_io::{Failed, Source};
use std::alloc::Global;

/// The most bytes of a read.
const PIECE: usize = 4096;

/// Why a list is not read.
#[derive(Debug, Clone, Copy, PartialEq, Eq)]
pub(crate) enum ListFault {
    /// A read failed, or a name is not UTF-8.
    Read,
    /// Memory was refused.
    Memory,
}

/// Why there are no statements to read.
#[derive(Drop)]
pub(crate) enum InputError {
    /// The first file that cannot be opened, or memory was refused.
    Open(OpenError),
    /// The list that cannot be read.
    Read(Text),
}

/// All bytes of a list.
fn read_bytes<R: Source>(alloc: Global, source: &mut R) -> Result<Vec<u8>, ListFault>
    ensures { MatchResult result (λ v. GaveAll (R.told source.old) (R.told source.new) v.items)
        (IsListFault (R.told source.old) (R.told source.new)) }
{
    let mut bytes = Vec::new(alloc);
    let mut piece = [0u8; PIECE];
    'reads: for _ in 0..u64::MAX {
        match source.read(&mut piece) {
            Ok(0) => return Ok(bytes),
            Ok(count) => match bytes.extend_from_slice(&piece[..count]) {
                Ok(()) => {}
                Err(_) => return Err(ListFault::Memory),
            },
            Err(Failed) => return Err(ListFault::Read),
        }
    }
    Err(ListFault::Memory)
}

/// The byte that ends each name of a list: zero if the list has one, and else a line feed.
fn name_end(bytes: &[u8]) -> u8
    ensures { result ≡ name_end bytes.now }
{
    if bytes.contains(&0) { 0 } else { b'\n' }
}

/// The place of the first end.
fn end_in(bytes: &[u8], end: u8) -> Option<usize>
    ensures place { result ≡ position (λ b. b == end) bytes.now }
    ensures within { IfSome result (λ place. place < length bytes.now) }
{
    bytes.iter().position(|byte| *byte == end)
}

/// The bytes before the first end, and those behind it.
fn cut(bytes: &[u8], end: u8) -> (&[u8], &[u8])
    ensures { IsCutAt end bytes.now result.0.now result.1.now }
{
    match end_in(bytes, end) {
        Some(place) => (&bytes[..place], &bytes[place + 1..]),
        None => (bytes, &[]),
    }
}

/// Appends a name.
fn push_name(alloc: Global, name: &[u8], names: &mut Names) -> Result<(), ListFault>
    ensures { MatchResult result (λ _. names.new ≡ names.old ++ name.now ∷ [])
        (λ fault. fault ≡ ListFault.Read → ¬ (IsUtf8 name.now)) }
{
    let Ok(name) = str::from_utf8(name) else {
        return Err(ListFault::Read);
    };
    let Ok(name) = Text::copy_of(alloc, name) else {
        return Err(ListFault::Memory);
    };
    match names.push(name) {
        Ok(()) => Ok(()),
        Err(_) => Err(ListFault::Memory),
    }
}

/// Appends the names that bytes spell.
#[tactic(auto, using(crate::proofs::Listing::none_pushed, crate::proofs::Listing::one_pushed, crate::proofs::Listing::all_pushed, crate::proofs::Listing::bad_name, crate::proofs::Listing::cut_shorter))]
fn push_names(alloc: Global, bytes: &[u8], names: &mut Names) -> Result<(), ListFault>
    ensures { MatchResult result (λ _. names.new ≡ names.old ++ names_in bytes.now)
        (λ fault. fault ≡ ListFault.Read → HasBadName bytes.now) }
{
    let end = name_end(bytes);
    let mut rest = bytes;
    'names: while !rest.is_empty() {
        let (name, more) = cut(rest, end);
        match push_name(alloc, name, names) {
            Ok(()) => rest = more,
            Err(fault) => return Err(fault),
        }
    }
    Ok(())
}

/// Appends the names in a list.
fn read_list<R: Source>(alloc: Global, source: &mut R, names: &mut Names) -> Result<(), ListFault>
    ensures { MatchResult result
        (λ _. IsListRead (R.told source.old) (R.told source.new) names.old names.new)
        (IsListFault (R.told source.old) (R.told source.new)) }
{
    match read_bytes(alloc, source) {
        Ok(bytes) => push_names(alloc, &bytes, names),
        Err(fault) => Err(fault),
    }
}

/// The error of a list that is not read, by its name.
fn unread(alloc: Global, list: &Text, fault: ListFault) -> InputError
    ensures { IsUnread list.now fault result }
{
    match (fault, list.copy(alloc)) {
        (ListFault::Read, Ok(list)) => InputError::Read(list),
        _ => InputError::Open(OpenError::Memory),
    }
}

/// Opens a list, and appends the names in it. Returns which file it is, if that is known.
fn open_list<W: StatementWorld>(
    alloc: Global,
    world: &W,
    permit: &W::Permit,
    list: &Text,
    names: &mut Names,
) -> Result<Option<FileIdentity>, InputError>
    ensures listed { WhereTold (W.disk world.now) (λ d. MatchResult result
        (λ _. AreListed d (list.now ∷ []) names.old names.new)
        (AreUnlisted W.Reader.told d (list.now ∷ []))) }
    ensures file { WhereTold (W.disk world.now) (λ d. IfOk result (λ f. f ≡ d.file list.now)) }
{
    let source = match world.open(permit, list.as_str()) {
        Ok(source) => source,
        Err(fault) => return Err(InputError::Open(unopened(alloc, list, fault))),
    };
    let file = source.identity();
    let mut source = source;
    match read_list(alloc, &mut source, names) {
        Ok(()) => Ok(file),
        Err(fault) => Err(unread(alloc, list, fault)),
    }
}

/// Appends the names in the lists, in order. Returns which files the lists are, as far as that is known.
///
/// # Errors
///
/// `Open`: the first list that cannot be opened, or memory was refused. `Read`: the list that cannot be read.
pub(crate) fn read_lists<W: StatementWorld>(
    alloc: Global,
    world: &W,
    permit: &W::Permit,
    lists: &Names,
    names: &mut Names,
) -> Result<Vec<Option<FileIdentity>>, InputError>
    ensures listed { WhereTold (W.disk world.now) (λ d. MatchResult result
        (λ _. AreListed d lists.now names.old names.new) (AreUnlisted W.Reader.told d lists.now)) }
    ensures files { WhereTold (W.disk world.now) (λ d. IfOk result
        (λ files. files.items ≡ map d.file lists.now)) }
{
    let mut files = Vec::new(alloc);
    for list in lists.as_slice() {
        let file = match open_list(alloc, world, permit, list, names) {
            Ok(file) => file,
            Err(error) => return Err(error),
        };
        if files.push(file).is_err() {
            return Err(InputError::Open(OpenError::Memory));
        }
    }
    Ok(files)
}
