//! The event that `read_file` hands back is the one that its sink refused. Contracts say only that it may come next.
use dsr_file::{Event, EventList, EventPart, FromRead, Outcome, ReadFileError, Sink, read_file};
use dsr_records::Layout;
use std::alloc::Global;

/// A file of two blocks. A resource closes the first one, and FOOT the second one.
const FILE: &str = "HEAD\tR1\t1\t1\t2024-01-01\t2024-01-31\tS\tL
SY01\tS1\tGB\tOnDemandStream\tGBP\t30\t1.5
AS01\t1\tGBABC2400001\tSong\tBand
MW01\t1\tW1\tSong\tP1|P2\t50|25
SU01\t1\tS1\t10\t0.5
AS01\t2\tGBABC2400002\tOther\tBand
SU01\t2\tS1\t20\t1
FOOT\t8\t1\t2
";

/// The same file with CR LF line ends: none of its lines is read quickly.
const FILE_WITH_CR: &str = "HEAD\tR1\t1\t1\t2024-01-01\t2024-01-31\tS\tL\r
SY01\tS1\tGB\tOnDemandStream\tGBP\t30\t1.5\r
AS01\t1\tGBABC2400001\tSong\tBand\r
MW01\t1\tW1\tSong\tP1|P2\t50|25\r
SU01\t1\tS1\t10\t0.5\r
AS01\t2\tGBABC2400002\tOther\tBand\r
SU01\t2\tS1\t20\t1\r
FOOT\t8\t1\t2\r
";

/// What tells the events of this file apart.
#[derive(Clone, Copy, PartialEq, Eq)]
enum Seen {
    /// An opening with this number of summaries.
    Opened(usize),
    /// A block with this number as its identifier, and these numbers of works and usages.
    Block(u64, usize, usize),
    /// The end.
    Ended(Outcome),
}

/// The events of the file, in order.
const EVENTS: [Seen; 4] = [
    Seen::Opened(1),
    Seen::Block(1, 1, 1),
    Seen::Block(2, 0, 1),
    Seen::Ended(Outcome::Whole),
];

/// The place of an event, and what it is.
fn as_seen(event: &Event) -> (u64, Seen) {
    let seen = match &event.part {
        EventPart::Opened(opening) => Seen::Opened(opening.summaries.len()),
        EventPart::Block(block) => {
            let id = block.id.as_str().parse::<u64>().unwrap_or(0);
            Seen::Block(id, block.works.len(), block.usages.len())
        }
        EventPart::Ended(outcome) => Seen::Ended(*outcome),
    };
    (event.place, seen)
}

/// A sink that takes a number of events, and then refuses one. It notes which one.
#[derive(Drop)]
struct Limited {
    taken: EventList,
    left: usize,
    refused: Option<(u64, Seen)>,
}

impl Sink for Limited {
    type Name = ();

    ghost list = { λ s. s.taken };

    ghost name = { λ _. tt };

    fn put(&mut self, event: Event) -> Result<(), Event> {
        if self.left == 0 {
            self.refused = Some(as_seen(&event));
            return Err(event);
        }
        self.left -= 1;
        self.taken.push(event)
    }
}

/// What a sink that takes this many events of a file refuses, and what is handed back.
fn refused(alloc: Global, text: &'static str, taken: usize) -> [Option<(u64, Seen)>; 2] {
    let mut sink = Limited {
        taken: EventList::new(alloc),
        left: taken,
        refused: None,
    };
    let mut reader = FromRead::new(text.as_bytes());
    let answer = read_file(alloc, &Layout::standard(), &mut reader, &mut sink, 100);
    let back = match &answer {
        Err(ReadFileError::Refused(event)) => Some(as_seen(event)),
        _ => None,
    };
    drop(answer);
    let refused = sink.refused;
    drop(sink);
    [refused, back]
}

#[test]
fn the_refused_event_is_handed_back(rt: HostRuntime) {
    let alloc = rt.alloc();
    for text in [FILE, FILE_WITH_CR] {
        for (place, seen) in EVENTS.iter().enumerate() {
            let wanted = Some((place as u64, *seen));
            assert!(rt;
                refused(alloc, text, place) == [wanted, wanted],
                "event {place}"
            );
        }
        assert!(rt; refused(alloc, text, EVENTS.len()) == [None, None]);
    }
}
