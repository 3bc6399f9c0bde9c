//! Digests, sources and outlets at work, and a sealed statement.
ghost use Rattle.std.specs.Prelude.{◌≡◌, None};

use crate::{Counted, Digest, Digesting, write_seal};
use dsr_io::{Failed, FromRead, Outlet, ReadCount, Source, write_all};
use dsr_statement::Status;

/// Whether the digest has this many bytes, and this SHA-256.
fn is_digest(digest: &Digest, bytes: u64, sha256: &str) -> bool {
    let digest = digest.as_ref();
    digest.bytes == bytes && digest.sha256 == sha256
}

/// The digest of what a source gives in so many reads, whether they fail or not.
fn digest_of_reads<R: Source + Drop>(source: R, reads: usize) -> Digest {
    let mut source = Digesting::new(source);
    let mut piece = [0; 7];
    for _ in 0..reads {
        let _ = source.read(&mut piece);
    }
    source.into_digest()
}

#[test]
fn a_digest_is_that_of_the_standard(rt: HostRuntime) {
    let empty = "e3b0c44298fc1c149afbf4c8996fb92427ae41e4649b934ca495991b7852b855";
    assert!(rt; is_digest(&Digest::of(b""), 0, empty));
    let abc = "ba7816bf8f01cfea414140de5dae2223b00361a396177a9cb410ff61f20015ad";
    assert!(rt; is_digest(&Digest::of(b"abc"), 3, abc));
    let two_blocks = "248d6a61d20638b8e5c026930c3e6039a33ce45964ff2167f6ecedd419db06c1";
    let message = b"abcdbcdecdefdefgefghfghighijhijkijkljklmklmnlmnomnopnopq";
    assert!(rt; is_digest(&Digest::of(message), 56, two_blocks));
}

#[test]
fn a_source_is_digested_in_its_reads(rt: HostRuntime) {
    let text = b"HEAD\tR1\t1\t1\t2024-01-01\t2024-01-31\tS\tL\n";
    let digest = digest_of_reads(FromRead::new(text.as_slice()), 9);
    let whole = Digest::of(text);
    assert!(rt; is_digest(&digest, 38, whole.as_ref().sha256));
}

/// A source that fails in its second read.
#[derive(Drop)]
struct Broken<'t> {
    rest: &'t [u8],
    count: ReadCount,
    reads: u64,
    failed: bool,
}

impl<'t> Source for Broken<'t> {
    ghost told = { λ s. record { remaining = None; failed = s.failed; reads = s.count } };

    fn read(&mut self, piece: &mut [u8]) -> Result<usize, Failed> {
        self.reads = self.reads.wrapping_add(1);
        if self.reads == 2 {
            self.failed = true;
            self.count.add(0);
            piece[0] = b'!';
            return Err(Failed);
        }
        let count = piece.len().min(self.rest.len());
        self.count.add(count);
        let (front, rest) = self.rest.split_at(count);
        piece[..count].copy_from_slice(front);
        self.rest = rest;
        Ok(count)
    }

    fn failed(&self) -> bool {
        self.failed
    }
}

#[test]
fn a_failed_read_adds_nothing(rt: HostRuntime) {
    let text = b"0123456789";
    let source = Broken {
        rest: text,
        count: ReadCount::new(),
        reads: 0,
        failed: false,
    };
    let whole = Digest::of(text);
    assert!(rt; is_digest(&digest_of_reads(source, 4), 10, whole.as_ref().sha256));
}

/// An outlet that keeps what it takes, up to 300 bytes in all, of which the first `room` are left.
#[derive(Drop)]
struct Sheet {
    bytes: [u8; 300],
    taken: usize,
    room: usize,
    failed: bool,
    flushes: u64,
    unflushed: bool,
}

impl Sheet {
    /// An empty sheet.
    fn new(room: usize) -> Sheet
        ensures { result.taken ≡ 0 }
    {
        Sheet {
            bytes: [0; 300],
            taken: 0,
            room,
            failed: false,
            flushes: 0,
            unflushed: false,
        }
    }

    /// Whether it holds exactly these bytes, which were flushed or not.
    fn holds(&self, bytes: &[u8], is_flushed: bool) -> bool {
        self.unflushed != is_flushed && self.bytes.get(..self.taken) == Some(bytes)
    }
}

impl Outlet for Sheet {
    ghost told = { λ s. record {
      contents = None;
      taken = s.taken;
      failed = s.failed;
      flushes = s.flushes;
      unflushed = s.unflushed;
    } };

    fn write(&mut self, piece: &[u8]) -> Result<usize, Failed> {
        let end = self.room.min(300);
        let count = piece.len().min(end.saturating_sub(self.taken));
        if count == 0 {
            self.failed = true;
            return Err(Failed);
        }
        self.bytes[self.taken..self.taken + count].copy_from_slice(&piece[..count]);
        self.taken += count;
        self.unflushed = true;
        Ok(count)
    }

    fn flush(&mut self) -> Result<(), Failed> {
        let Some(flushes) = self.flushes.checked_add(1) else {
            self.failed = true;
            return Err(Failed);
        };
        self.flushes = flushes;
        self.unflushed = false;
        Ok(())
    }

    fn failed(&self) -> bool {
        self.failed
    }
}

/// Writes a statement of one file, and its seal behind it. The error is how many bytes of both were written.
fn write_sealed<O: Outlet>(out: O, statement: &[u8], file: &[u8]) -> (O, Result<(), u64>)
    requires { (O.told out).taken ≡ 0 }
{
    let mut out = Counted::new(out);
    let mut is_written = write_all(&mut out, statement).is_ok();
    if is_written {
        let lines = out.lines();
        is_written = write_seal(
            &mut out,
            None,
            &[Digest::of(file)],
            lines,
            Status::Remarks,
        ).is_ok();
    }
    let answer = if is_written { Ok(()) } else { Err(out.taken()) };
    (out.into_outlet(), answer)
}

/// The statement of an empty file.
const STATEMENT: &str = "NOREPORT\nFILE\t1\t-\tHeadless\t0\tWhole\n";

/// The statement of an empty file, and its seal.
const SEALED: &str = "NOREPORT
FILE\t1\t-\tHeadless\t0\tWhole
INPUT\t1\t0\te3b0c44298fc1c149afbf4c8996fb92427ae41e4649b934ca495991b7852b855
END\t3\tRemarks
";

#[test]
fn a_statement_is_sealed(rt: HostRuntime) {
    let (sheet, answer) = write_sealed(Sheet::new(300), STATEMENT.as_bytes(), b"");
    assert!(rt; answer == Ok(()));
    assert!(rt; sheet.holds(SEALED.as_bytes(), true));
}

#[test]
fn a_write_fails_within_the_seal(rt: HostRuntime) {
    let (sheet, answer) = write_sealed(Sheet::new(100), STATEMENT.as_bytes(), b"");
    assert!(rt; answer == Err(100));
    assert!(rt; sheet.holds(&SEALED.as_bytes()[..100], false));
}
