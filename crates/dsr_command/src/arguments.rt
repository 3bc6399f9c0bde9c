//! Reading the command line.
ghost use Rattle.std.specs.Prelude.{◌≡◌, ◌≤◌, IfOk, IfErr, OnOk, false, [], codes, map, unwrap_or};
ghost use Rattle.std.specs.String.{string_bytes};
ghost use Rattle.clap.specs.Values.{kind_of};
ghost use Rattle.clap.specs.Words.{all_of, app_of, fault_of, first_of, found_of, matches_of, one_text, rows_of, rule_of};
ghost use Rattle.dsr_command.specs.CommandLine.{Answers, IsAskedBy, IsFaultOf, IsNumberAsked, IsFlagAsked, bare_command, command_line, names_rule, number_rule, option_rule, output_rule, flag_rule};

use crate::command::{Asked, CommandFault, Names};
use clap::error::ErrorKind;
use clap::{Arg, ArgAction, ArgMatches, Command, Error};
use dsr_cells::{NoMemory, Text};
use dsr_intake::Options;
use std::alloc::{AllocError, Global};

/// The program's version, and that of the toolchain that proved it.
const VERSION: &str = "0.9.0
rattle-kit-13f logic dac8208d650f15bf";

/// The first lines of the help.
const ABOUT: &str = "Reads the files of one sales report and prints its statement: each file and
whether it is whole, the files that are missing, the totals that do not agree,
what is owed for each recording, territory, use type and currency and to whom,
and each block of records that was left out, with the reason.";

/// The last lines of the help.
const STATUSES: &str = "Example:
  dsr --output statement.tsv 1.tsv 2.tsv 3.tsv

A layout is a text with a line for each record type, its cells separated by
TABs. ROLE is HEAD, SY, AS, MW, SU or FOOT; a position is the cell of a column,
1 to 63, or - for a column that is not there:
  ROLE  TYPE  POSITION..    how records of this type are read
  SKIP  TYPE                records of this type are left out
This is the standard one:
  HEAD  HEAD  1 2 3 4 5 6 7
  SY    SY01  1 2 3 4 5 6
  AS    AS01  1 2 3 4
  MW    MW01  1 2 3 4 5
  SU    SU01  1 2 3 4
  FOOT  FOOT  1 2 3

Exit status:
  0  the report is complete and has no remarks
  1  the statement has remarks: look at its FILE, MISSING, SUMMARY and REJECT
     lines
  2  an error in the command line, a file that cannot be opened or created, or
     a bad layout
  3  the run failed; standard error says why";

/// The help of `--output`, `--progress` and `--seal`.
const OUTPUT: &str = "Writes the statement to FILE, which is replaced once the
statement is whole, and else stays as it was";

const PROGRESS: &str = "Reports the progress of the reading on standard error, at
most twice a second";

const SEAL: &str = "Ends the statement with the number and the SHA-256 of the
bytes of each file, and the number of its lines";

/// The last lines of clap's text on a number out of range.
const TAIL: &str = "

For more information, try '--help'.
";

/// How the line before them ends, and the same in words.
const RANGES: [(&str, &str); 4] = [
    (" is not in 1..=1024", " is not in the range 1 to 1024"),
    (
        " is not in 1..=16777216",
        " is not in the range 1 to 16777216",
    ),
    (
        "'--capacity <N>': number too large to fit in target type",
        "'--capacity <N>': the number is not in the range 1 to 1024",
    ),
    (
        "'--max-reads <N>': number too large to fit in target type",
        "'--max-reads <N>': the number is not in the range 1 to 16777216",
    ),
];

/// `--capacity N`.
fn capacity_option<'a>(alloc: Global) -> Arg<'a>
    ensures rule { rule_of result ≡ number_rule (codes "capacity") 1024 }
    ensures local { result.global ≡ false }
{
    Arg::new(alloc, "capacity")
        .long("capacity")
        .value_name("N")
        .action(ArgAction::Set)
        .value_parser(clap::value_parser!(u32).range(1..=1024))
        .help(
            "How far each file may be read ahead, in messages of up to
32 blocks: 1 to 1024 [default: 16]; fewer take less
memory, more let a file run further ahead of the others",
        )
}

/// `--max-reads N`.
fn reads_option<'a>(alloc: Global) -> Arg<'a>
    ensures rule { rule_of result ≡ number_rule (codes "max-reads") 16777216 }
    ensures local { result.global ≡ false }
{
    Arg::new(alloc, "max-reads")
        .long("max-reads")
        .value_name("N")
        .action(ArgAction::Set)
        .value_parser(clap::value_parser!(u32).range(1..=16_777_216))
        .help(
            "The maximum number of reads for each file, of at most
4096 bytes each: 1 to 16777216 [default: 4194304]",
        )
}

/// `--layout FILE`.
fn layout_option<'a>(alloc: Global) -> Arg<'a>
    ensures rule { rule_of result ≡ option_rule (codes "layout") }
    ensures local { result.global ≡ false }
{
    Arg::new(alloc, "layout")
        .long("layout")
        .value_name("FILE")
        .action(ArgAction::Set)
        .help(
            "A file with the positions of the columns in each record;
examples/layout.tsv is one to copy",
        )
}

/// `--output FILE`, or `-o FILE`.
pub fn output_option<'a>(alloc: Global, help: &'a str) -> Arg<'a>
    ensures rule { rule_of result ≡ output_rule }
    ensures local { result.global ≡ false }
{
    Arg::new(alloc, "output")
        .short('o')
        .long("output")
        .value_name("FILE")
        .action(ArgAction::Set)
        .help(help)
}

/// An option without a value.
pub fn flag_option<'a>(alloc: Global, name: &'a str, help: &'a str) -> Arg<'a>
    ensures rule { rule_of result ≡ flag_rule name.now }
    ensures local { result.global ≡ false }
{
    Arg::new(alloc, name)
        .long(name)
        .action(ArgAction::SetTrue)
        .help(help)
}

/// The names of the files.
fn names_argument<'a>(alloc: Global) -> Arg<'a>
    ensures rule { rule_of result ≡ names_rule (codes "FILE") }
    ensures local { result.global ≡ false }
{
    Arg::new(alloc, "FILE")
        .num_args(0..)
        .action(ArgAction::Append)
        .help(
            "The files of the report. The first one that has a head says which
report it is, and of two with one number the first one counts.
Without a FILE, or for -, standard input, which can be named once;
a file of that name is ./-, and in an option - itself",
        )
}

/// The program's command with its texts, before its arguments.
#[tactic(auto, unfolding(crate::specs::CommandLine::bare_command))]
fn bare<'a>(alloc: Global) -> Command<'a>
    ensures { app_of result ≡ bare_command }
{
    Command::new(alloc, "dsr")
        .version(VERSION)
        .about(ABOUT)
        .after_help(STATUSES)
        .no_binary_name(true)
}

/// The program's command.
#[tactic(auto, unfolding(crate::specs::CommandLine::command_line))]
fn command<'a>(alloc: Global) -> Result<Command<'a>, AllocError>
    ensures { IfOk result (λ c. app_of c ≡ command_line) }
{
    bare(alloc)
        .arg(capacity_option(alloc))?
        .arg(reads_option(alloc))?
        .arg(layout_option(alloc))?
        .arg(output_option(alloc, OUTPUT))?
        .arg(flag_option(alloc, "progress", PROGRESS))?
        .arg(flag_option(alloc, "seal", SEAL))?
        .arg(names_argument(alloc))
}

/// What the arguments after the program's name ask for.
///
/// # Errors
///
/// `Help`: they ask for the help or the version. `Refused`: they have a fault. `Memory`: out of memory. The texts are clap's.
pub fn asked(alloc: Global, words: &[String]) -> Result<Asked, CommandFault>
    ensures capacity { IfOk result (λ a. (1 ≤ a.capacity) × (a.capacity ≤ 1024)) }
    ensures reads { IfOk result (λ a. (1 ≤ a.max_reads) × (a.max_reads ≤ 16777216)) }
    ensures taken { OnOk result (fault_of command_line (map string_bytes words.now) ≡ []) }
    ensures asked { IfOk result (IsAskedBy (matches_of command_line (map string_bytes words.now))) }
    ensures fault { IfErr result (IsFaultOf (fault_of command_line (map string_bytes words.now))) }
{
    let Ok(command) = command(alloc) else {
        return Err(CommandFault::Memory);
    };
    match command.try_get_matches_from(words) {
        Ok(matches) => match read_matches(alloc, &matches) {
            Ok(asked) => Ok(asked),
            Err(NoMemory) => Err(CommandFault::Memory),
        },
        Err(error) => Err(fault_of_error(alloc, error)),
    }
}

/// The values of a parsed command line.
fn read_matches(alloc: Global, matches: &ArgMatches<'_>) -> Result<Asked, NoMemory>
    ensures capacity { IfOk result (λ a. (1 ≤ a.capacity) × (a.capacity ≤ 1024)) }
    ensures reads { IfOk result (λ a. (1 ≤ a.max_reads) × (a.max_reads ≤ 16777216)) }
    ensures asked { IfOk result (IsAskedBy (rows_of (found_of matches.now))) }
{
    let standard = Options::standard();
    Ok(Asked {
        capacity: number_or(matches, "capacity", standard.capacity, 1024),
        max_reads: number_or(matches, "max-reads", standard.max_reads, 16_777_216),
        files: read_names(alloc, matches, "FILE")?,
        layout: read_file_name(alloc, matches, "layout")?,
        output: read_file_name(alloc, matches, "output")?,
        progress: is_set(matches, "progress"),
        seal: is_set(matches, "seal"),
    })
}

/// The number that was given, or the default. The parser refuses a number that is out of range.
fn number_or(matches: &ArgMatches<'_>, id: &str, standard: u32, most: u32) -> u32
    requires some { 1 ≤ standard }
    requires within { standard ≤ most }
    ensures some { 1 ≤ result }
    ensures within { result ≤ most }
    ensures asked { IsNumberAsked standard most (one_text (found_of matches.now) id.now) result }
{
    match matches.get_one::<u32>(id) {
        Some(number) if 1 <= number && number <= most => number,
        _ => standard,
    }
}

/// Whether a flag was given.
pub fn is_set(matches: &ArgMatches<'_>, id: &str) -> bool
    ensures { IsFlagAsked (one_text (found_of matches.now) id.now) result }
{
    matches.get_flag(id)
}

/// The names that an argument of this identifier gives, in their order.
///
/// # Errors
///
/// Out of memory.
pub fn read_names(alloc: Global, matches: &ArgMatches<'_>, id: &str) -> Result<Names, NoMemory>
    ensures { IfOk result (λ names.
        names ≡ unwrap_or (all_of id.now (rows_of (found_of matches.now))) []) }
{
    match matches.get_strs(id) {
        Some(words) => copy_names(alloc, words),
        None => Ok(Names::new(alloc)),
    }
}

/// Copies the names, in order.
fn copy_names(alloc: Global, words: &[&str]) -> Result<Names, NoMemory>
    ensures { IfOk result (λ names. names ≡ map (λ w. w.now) words.now) }
{
    let mut names = Names::new(alloc);
    for word in words {
        let name = Text::copy_of(alloc, word)?;
        names.push(name).map_err(|_| NoMemory)?;
    }
    Ok(names)
}

/// The name of a file that an option gives, if it was given.
///
/// # Errors
///
/// Out of memory.
pub fn read_file_name(
    alloc: Global,
    matches: &ArgMatches<'_>,
    id: &str,
) -> Result<Option<Text>, NoMemory>
    ensures { IfOk result (λ name. name ≡ first_of id.now (rows_of (found_of matches.now))) }
{
    match matches.get_str(id) {
        Some(word) => Ok(Some(Text::copy_of(alloc, word)?)),
        None => Ok(None),
    }
}

/// Clap's text on an error, with a range of numbers in words.
fn in_words(alloc: Global, text: &str) -> Result<Text, NoMemory> {
    let Some(line) = text.strip_suffix(TAIL) else {
        return Text::copy_of(alloc, text);
    };
    for (end, words) in RANGES {
        if let Some(start) = line.strip_suffix(end) {
            let Ok(string) = format!(in alloc; "{}{}{}", start, words, TAIL) else {
                return Err(NoMemory);
            };
            return Text::of_string(alloc, string);
        }
    }
    Text::copy_of(alloc, text)
}

/// Why the command line was refused, or the text that it asks for.
pub fn fault_of_error(alloc: Global, error: Error) -> CommandFault
    ensures { Answers (kind_of error) result }
{
    let kind = error.kind();
    let string = error.to_string(alloc);
    drop(error);
    let Ok(string) = string else {
        return CommandFault::Memory;
    };
    let text = in_words(alloc, &string);
    drop(string);
    let Ok(text) = text else {
        return CommandFault::Memory;
    };
    match kind {
        ErrorKind::DisplayHelp | ErrorKind::DisplayVersion => CommandFault::Help(text),
        ErrorKind::OutOfMemory => {
            drop(text);
            CommandFault::Memory
        }
        _ => CommandFault::Refused(text),
    }
}
