//! How an answer is printed: the word of the call, a colon, and the value; kinds, faults and endings by the names that the
//! sources have for them.
use dsr_cells::NoMemory;
use dsr_events::Ending;
use dsr_ledger::{Reason, Standing, Verdict};
use dsr_records::{Column, Kind, LayoutFault, RecordFault};
use std::fmt::Display;
use std::io::{self, Print};

/// Memory that was refused, as an error of the program.
pub fn no_memory(_refused: NoMemory) -> io::Error {
    io::ErrorKind::OutOfMemory.into()
}

/// Prints a value.
pub fn say<P: Print, T: Display + Drop>(rt: &P, word: &str, value: T) -> io::Result<()> {
    println!(rt; "{word}: {value}")
}

/// Prints a value, or `none`.
pub fn say_option<P: Print, T: Display + Drop>(
    rt: &P,
    word: &str,
    value: Option<T>,
) -> io::Result<()> {
    match value {
        Some(value) => println!(rt; "{word}: {value}"),
        None => println!(rt; "{word}: none"),
    }
}

/// Prints a text in quotes, or `none`.
pub fn quote<P: Print>(rt: &P, word: &str, text: Option<&str>) -> io::Result<()> {
    match text {
        Some(text) => println!(rt; "{word}: \"{text}\""),
        None => println!(rt; "{word}: none"),
    }
}

/// Prints bytes in quotes, which are a text.
pub fn quote_bytes<P: Print>(rt: &P, word: &str, bytes: &[u8]) -> io::Result<()> {
    quote(rt, word, str::from_utf8(bytes).ok())
}

/// The name of a kind of record.
pub fn kind_name(kind: Kind) -> &'static str {
    match kind {
        Kind::Head => "Head",
        Kind::Summary => "Summary",
        Kind::Resource => "Resource",
        Kind::Work => "Work",
        Kind::Usage => "Usage",
        Kind::Foot => "Foot",
        Kind::Skipped => "Skipped",
    }
}

/// The name of a fault of a line, and its column, if it has one.
pub fn fault_name(fault: RecordFault) -> (&'static str, Option<Column>) {
    match fault {
        RecordFault::Many => ("Many", None),
        RecordFault::Unknown => ("Unknown", None),
        RecordFault::Missing(column) => ("Missing", Some(column)),
        RecordFault::Bad(column) => ("Bad", Some(column)),
        RecordFault::Uneven => ("Uneven", None),
    }
}

/// The name of a fault of a layout.
pub fn layout_fault_name(fault: LayoutFault) -> &'static str {
    match fault {
        LayoutFault::Large => "Large",
        LayoutFault::LongLine => "LongLine",
        LayoutFault::NotUtf8 => "NotUtf8",
        LayoutFault::UnknownRole => "UnknownRole",
        LayoutFault::BadType => "BadType",
        LayoutFault::RoleTwice => "RoleTwice",
        LayoutFault::TypeTwice => "TypeTwice",
        LayoutFault::BadPosition => "BadPosition",
        LayoutFault::ManySkips => "ManySkips",
        LayoutFault::MissingRole => "MissingRole",
    }
}

/// The ending with this name; Whole if there is none.
pub fn ending_named(name: &str) -> Ending {
    match name {
        "Read" => Ending::Read,
        "Reads" => Ending::Reads,
        _ => Ending::Whole,
    }
}

/// The name of a standing.
pub fn standing_name(standing: Standing) -> &'static str {
    match standing {
        Standing::Ours => "Ours",
        Standing::Foreign => "Foreign",
        Standing::Doubled => "Doubled",
        Standing::Headless => "Headless",
    }
}

/// The name of a verdict: Booked, or the reason.
pub fn verdict_name(verdict: Verdict) -> &'static str {
    match verdict {
        Verdict::Booked => "Booked",
        Verdict::Rejected(reason) => match reason {
            Reason::ForeignFile => "ForeignFile",
            Reason::DoubledFile => "DoubledFile",
            Reason::DoubledBlock => "DoubledBlock",
            Reason::NoIsrc => "NoIsrc",
            Reason::BadIsrc => "BadIsrc",
            Reason::UnknownSummary => "UnknownSummary",
            Reason::ShareOver => "ShareOver",
        },
    }
}
