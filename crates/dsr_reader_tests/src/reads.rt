//! How far a file is read: to its end, or to the line at which memory was refused.
ghost use Rattle.std.specs.Prelude.{None, false};

use dsr_file::{EventList, Failed, FileFault, Outcome, ReadFileError, Source, read_file};
use dsr_io::ReadCount;
use dsr_records::Layout;
use std::alloc::Global;

/// A file of two blocks.
const FILE: &str = "HEAD\tR1\t1\t1\t2024-01-01\t2024-01-31\tS\tL
SY01\tS1\tGB\tOnDemandStream\tGBP\t30\t1.5
AS01\t1\tGBABC2400001\tSong\tBand
MW01\t1\tW1\tSong\tP1|P2\t50|25
SU01\t1\tS1\t10\t0.5
AS01\t2\tGBABC2400002\tOther\tBand
SU01\t2\tS1\t20\t1
FOOT\t8\t1\t2
";

/// A source that gives one byte a read.
#[derive(Drop)]
struct ByBytes<'t> {
    rest: &'t [u8],
    reads: usize,
    count: ReadCount,
}

impl<'t> Source for ByBytes<'t> {
    ghost told = { λ s. record { remaining = None; failed = false; reads = s.count } };

    fn read(&mut self, piece: &mut [u8]) -> Result<usize, Failed> {
        self.reads = self.reads.wrapping_add(1);
        let count = piece.len().min(self.rest.len()).min(1);
        self.count.add(count);
        let (front, rest) = self.rest.split_at(count);
        piece[..count].copy_from_slice(front);
        self.rest = rest;
        Ok(count)
    }

    fn failed(&self) -> bool {
        false
    }
}

/// The number of bytes of the first `lines` lines, with their ends.
fn length_of(lines: u64, bytes: &[u8]) -> usize {
    let mut ended = 0u64;
    for (place, byte) in bytes.iter().enumerate() {
        if *byte == b'\n' {
            ended = ended.wrapping_add(1);
            if ended == lines {
                return place.wrapping_add(1);
            }
        }
    }
    bytes.len()
}

/// The reads of one byte that a file of these bytes takes which ends like this. None if an event was refused.
fn reads_to_end(answer: &Result<Outcome, ReadFileError>, bytes: &[u8]) -> Option<usize> {
    match answer {
        Ok(Outcome::Whole) => Some(bytes.len().wrapping_add(1)),
        Ok(
            Outcome::Fault {
                line,
                fault: FileFault::Memory,
            },
        ) => Some(length_of(*line, bytes)),
        Ok(_) => Some(0),
        Err(ReadFileError::Memory) => Some(0),
        Err(ReadFileError::Refused(_)) => None,
    }
}

/// Whether the number of reads is the wanted one; true also if none is wanted, since an event was refused.
fn is_number_right(reads: usize, wanted: Option<usize>) -> bool {
    match wanted {
        Some(wanted) => reads == wanted,
        None => true,
    }
}

/// Whether a file of these bytes is read as far as it should be; true also if an event is refused.
fn is_read_no_further(alloc: Global, bytes: &[u8]) -> bool {
    let mut events = EventList::new(alloc);
    let mut source = ByBytes {
        rest: bytes,
        reads: 0,
        count: ReadCount::new(),
    };
    let answer = read_file(alloc, &Layout::standard(), &mut source, &mut events, 1000);
    let wanted = reads_to_end(&answer, bytes);
    drop(answer);
    drop(events);
    is_number_right(source.reads, wanted)
}

#[test]
fn no_read_after_the_end(rt: HostRuntime) {
    assert!(rt; is_read_no_further(rt.alloc(), FILE.as_bytes()));
}
