//! The calls of dsr_records on a line, by the layout of the session.
use crate::answers::{fault_name, kind_name, quote, say};
use dsr_cells::{Day, Shares, Texts};
use dsr_records::{
    Foot, Head, Layout, ReadRecordError, Record, RecordFault, Resource, Summary, Usage, Work,
    check_record, read_record, record_id,
};
use std::alloc::Global;
use std::io::{self, Print};

/// Prints the fault of a line.
fn show_fault<P: Print>(rt: &P, word: &str, fault: RecordFault) -> io::Result<()> {
    match fault_name(fault) {
        (name, Some(column)) => println!(rt; "{word}: Fault {name} {}", column.name()),
        (name, None) => println!(rt; "{word}: Fault {name}"),
    }
}

/// Prints a day by its number.
fn show_day<P: Print>(rt: &P, name: &str, day: Day) -> io::Result<()> {
    print!(rt; " {name}={}", day.number())
}

/// Prints a list of texts.
fn show_texts<P: Print>(rt: &P, name: &str, texts: &Texts) -> io::Result<()> {
    print!(rt; " {name}=[")?;
    for (i, text) in texts.as_slice().iter().enumerate() {
        let gap = if i == 0 { "" } else { " " };
        print!(rt; "{gap}\"{}\"", text.as_str())?;
    }
    print!(rt; "]")
}

/// Prints a list of shares.
fn show_shares<P: Print>(rt: &P, shares: &Shares) -> io::Result<()> {
    print!(rt; " shares=[")?;
    for (i, share) in shares.as_slice().iter().enumerate() {
        let gap = if i == 0 { "" } else { " " };
        print!(rt; "{gap}{}", share.parts())?;
    }
    print!(rt; "]")
}

fn show_head<P: Print>(rt: &P, head: &Head) -> io::Result<()> {
    let (id, file, files) = (
        head.message_id.as_str(),
        head.file_number,
        head.number_of_files,
    );
    print!(rt; " Head message_id=\"{id}\" file_number={file} number_of_files={files}")?;
    show_day(rt, "first_day", head.first_day)?;
    show_day(rt, "last_day", head.last_day)?;
    let (sender, recipient) = (head.sender.as_str(), head.recipient.as_str());
    println!(rt; " sender=\"{sender}\" recipient=\"{recipient}\"")
}

fn show_summary<P: Print>(rt: &P, summary: &Summary) -> io::Result<()> {
    let (id, territory) = (summary.id.as_str(), summary.territory.as_str());
    print!(rt; " Summary id=\"{id}\" territory=\"{territory}\"")?;
    let (use_type, currency) = (summary.use_type.as_str(), summary.currency.as_str());
    print!(rt; " use_type=\"{use_type}\" currency=\"{currency}\"")?;
    println!(rt;
        " usages={} amount={}",
        summary.usages,
        summary.amount.units()
    )
}

fn show_resource<P: Print>(rt: &P, resource: &Resource) -> io::Result<()> {
    let (id, isrc) = (resource.block_id.as_str(), resource.isrc.as_str());
    print!(rt; " Resource block_id=\"{id}\" isrc=\"{isrc}\"")?;
    show_texts(rt, "titles", &resource.titles)?;
    show_texts(rt, "artists", &resource.artists)?;
    println!(rt; "")
}

fn show_work<P: Print>(rt: &P, work: &Work) -> io::Result<()> {
    let (id, work_id, title) = (
        work.block_id.as_str(),
        work.work_id.as_str(),
        work.title.as_str(),
    );
    print!(rt; " Work block_id=\"{id}\" work_id=\"{work_id}\" title=\"{title}\"")?;
    show_texts(rt, "parties", &work.parties)?;
    show_shares(rt, &work.shares)?;
    println!(rt; "")
}

fn show_usage<P: Print>(rt: &P, usage: &Usage) -> io::Result<()> {
    let (id, summary) = (usage.block_id.as_str(), usage.summary_id.as_str());
    print!(rt; " Usage block_id=\"{id}\" summary_id=\"{summary}\"")?;
    println!(rt; " usages={} amount={}", usage.usages, usage.amount.units())
}

fn show_foot<P: Print>(rt: &P, foot: &Foot) -> io::Result<()> {
    let (lines, summaries, blocks) = (foot.lines, foot.summaries, foot.blocks);
    println!(rt; " Foot lines={lines} summaries={summaries} blocks={blocks}")
}

/// Prints the fields of a record.
fn show_record<P: Print>(rt: &P, word: &str, record: &Record) -> io::Result<()> {
    print!(rt; "{word}:")?;
    match record {
        Record::Head(head) => show_head(rt, head),
        Record::Summary(summary) => show_summary(rt, summary),
        Record::Resource(resource) => show_resource(rt, resource),
        Record::Work(work) => show_work(rt, work),
        Record::Usage(usage) => show_usage(rt, usage),
        Record::Foot(foot) => show_foot(rt, foot),
        Record::Skipped => println!(rt; " Skipped"),
    }
}

/// Reads a line and prints its record.
fn read<P: Print>(
    rt: &P,
    alloc: Global,
    layout: &Layout,
    word: &str,
    line: &str,
) -> io::Result<()> {
    match read_record(alloc, layout, line) {
        Ok(record) => {
            let shown = show_record(rt, word, &record);
            drop(record);
            shown
        }
        Err(ReadRecordError::Fault(fault)) => show_fault(rt, word, fault),
        Err(ReadRecordError::Memory) => say(rt, word, "out of memory"),
    }
}

/// Makes a call. Returns whether there is such a call.
pub fn answer<P: Print>(
    rt: &P,
    alloc: Global,
    layout: &Layout,
    word: &str,
    text: &str,
) -> io::Result<bool> {
    match word {
        "check_record" => match check_record(layout, text) {
            Ok(kind) => say(rt, word, kind_name(kind))?,
            Err(fault) => show_fault(rt, word, fault)?,
        },
        "record_id" => quote(rt, word, record_id(layout, text))?,
        "read_record" => read(rt, alloc, layout, word, text)?,
        _ => return Ok(false),
    }
    Ok(true)
}
