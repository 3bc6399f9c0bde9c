//! Reading the command line.
ghost use Rattle.std.specs.Prelude.{◌≡◌, IfOk, IfErr, false, codes, map};
ghost use Rattle.std.specs.Str.{bytes_eq};
ghost use Rattle.std.specs.String.{string_bytes};
ghost use Rattle.clap.specs.Values.{kind_of};
ghost use Rattle.clap.specs.Words.{app_of, found_of, rows_of, rule_of};
ghost use Rattle.dsr_command.specs.CommandLine.{Answers, names_rule};
ghost use Rattle.dsr_totals.specs.CommandLine.{IsAskedBy, IsAskedFor, IsFaultFor, IsUnequal, bare_command, command_line, lacks_equals, list_rule};

use crate::command::Asked;
use clap::error::ErrorKind;
use clap::{Arg, ArgAction, ArgMatches, Command, Error};
use dsr_cells::{NoMemory, Text};
use dsr_command::{
    CommandFault, fault_of_error, flag_option, is_set, output_option, read_file_name, read_names,
};
use dsr_sums::Rules;
use std::alloc::{AllocError, Global};

/// The program's version, and that of the toolchain that proved it.
const VERSION: &str = "0.9.0
rattle-kit-13f logic dac8208d650f15bf";

/// The first lines of the help.
const ABOUT: &str = "Reads sealed statements of sales reports, as dsr --seal prints them, and prints
what they add up to: each statement, the sums of each currency, of each
territory and use type, and what each party is owed. Nothing is printed if one
of the statements is refused.";

/// The last lines of the help.
const STATUSES: &str = "Examples:
  dsr --seal --output january.tsv january/1.tsv january/2.tsv
  dsr_totals january.tsv february.tsv > totals.tsv
  dsr_totals --paid=paid/january.tsv --output totals.tsv corrected/january.tsv

Exit status:
  0  the totals were written
  1  a statement was refused, and nothing was written; standard error says which
     line of which statement, and why
  2  an error in the command line, a file that cannot be opened, a list that
     cannot be read, or an output that cannot be created
  3  memory was refused, a write failed, or a total is out of range; standard
     error says which";

/// The help of `--with-remarks`, `--unsealed`, `--same-message` and `--output`.
const WITH_REMARKS: &str = "Takes statements that have remarks, too";

const UNSEALED: &str = "Takes statements without a seal, too, though nothing
shows whether they are whole";

const SAME_MESSAGE: &str = "Takes given statements of one MessageId with another
number of files or another period, too";

const OUTPUT: &str = "Writes the totals to FILE, which is replaced only once
they are whole";

/// What is said of `--paid` without its equals sign, as clap says it.
const NO_EQUALS: &str = "error: equal sign is needed when assigning values to '--paid=<STATEMENT>'

Usage: dsr_totals [OPTIONS] [STATEMENT]...

For more information, try '--help'.
";

/// `--paid=STATEMENT`, any number of times.
fn paid_option<'a>(alloc: Global) -> Arg<'a>
    ensures rule { rule_of result ≡ list_rule (codes "paid") }
    ensures local { result.global ≡ false }
{
    Arg::new(alloc, "paid")
        .long("paid")
        .value_name("STATEMENT")
        .action(ArgAction::Append)
        .help(
            "A statement of one of the given reports, whose amounts
were paid already: they are subtracted",
        )
}

/// `--paid-from LIST`, any number of times.
fn list_option<'a>(alloc: Global) -> Arg<'a>
    ensures rule { rule_of result ≡ list_rule (codes "paid-from") }
    ensures local { result.global ≡ false }
{
    Arg::new(alloc, "paid-from")
        .long("paid-from")
        .value_name("LIST")
        .action(ArgAction::Append)
        .help(
            "A file with the names of more such statements, one a
line, or each ended by a zero byte",
        )
}

/// The names of the statements.
fn names_argument<'a>(alloc: Global) -> Arg<'a>
    ensures rule { rule_of result ≡ names_rule (codes "STATEMENT") }
    ensures local { result.global ≡ false }
{
    Arg::new(alloc, "STATEMENT")
        .num_args(0..)
        .action(ArgAction::Append)
        .help(
            "The statements; without one, or for -, standard input, which
can be named once, here or by --paid; a file of that name is
./-, and - itself for --paid-from and --output",
        )
}

/// The program's command with its texts, before its arguments.
#[tactic(auto, unfolding(crate::specs::CommandLine::bare_command))]
fn bare<'a>(alloc: Global) -> Command<'a>
    ensures { app_of result ≡ bare_command }
{
    Command::new(alloc, "dsr_totals")
        .version(VERSION)
        .about(ABOUT)
        .after_help(STATUSES)
        .no_binary_name(true)
}

/// The program's command with this option for `--paid`.
#[tactic(auto, unfolding(crate::specs::CommandLine::command_line))]
fn command_with<'a>(alloc: Global, paid: Arg<'a>) -> Result<Command<'a>, AllocError>
    requires { paid.global ≡ false }
    ensures { rule_of paid.entry ≡ list_rule (codes "paid") → IfOk result (λ c. app_of c
        ≡ command_line) }
{
    bare(alloc)
        .arg(paid)?
        .arg(list_option(alloc))?
        .arg(flag_option(alloc, "with-remarks", WITH_REMARKS))?
        .arg(flag_option(alloc, "unsealed", UNSEALED))?
        .arg(flag_option(alloc, "same-message", SAME_MESSAGE))?
        .arg(output_option(alloc, OUTPUT))?
        .arg(names_argument(alloc))
}

/// The program's command.
fn command<'a>(alloc: Global) -> Result<Command<'a>, AllocError>
    ensures { IfOk result (λ c. app_of c ≡ command_line) }
{
    command_with(alloc, paid_option(alloc))
}

/// The text of the help, in which `--paid` has its equals sign.
fn help_text(alloc: Global) -> Result<String, AllocError> {
    command_with(alloc, paid_option(alloc).require_equals(true))?.render_help()
}

/// The answer to words that ask for the help.
fn help(alloc: Global) -> CommandFault
    ensures { Answers ErrorKind.DisplayHelp result }
{
    let Ok(string) = help_text(alloc) else {
        return CommandFault::Memory;
    };
    let text = Text::copy_of(alloc, &string);
    drop(string);
    match text {
        Ok(text) => CommandFault::Help(text),
        Err(NoMemory) => CommandFault::Memory,
    }
}

/// The answer to clap's error.
fn answer_to(alloc: Global, error: Error) -> CommandFault
    ensures { Answers (kind_of error) result }
{
    match error.kind() {
        ErrorKind::DisplayHelp => {
            drop(error);
            help(alloc)
        }
        _ => fault_of_error(alloc, error),
    }
}

/// Whether no word after this one is an option.
fn ends_options(word: &String) -> bool
    ensures { result ≡ bytes_eq (string_bytes word.now) (codes "--") }
{
    word.as_str() == "--"
}

/// Whether a word is `--paid` without its equals sign.
fn is_paid_alone(word: &String) -> bool
    ensures { result ≡ bytes_eq (string_bytes word.now) (codes "--paid") }
{
    word.as_str() == "--paid"
}

/// Whether `--paid` is given without its equals sign, before a `--`.
fn lacks_equals(words: &[String]) -> bool
    ensures { result ≡ lacks_equals (map string_bytes words.now) }
{
    for word in words {
        if ends_options(word) {
            return false;
        }
        if is_paid_alone(word) {
            return true;
        }
    }
    false
}

/// The answer to `--paid` without its equals sign.
fn unequal(alloc: Global) -> CommandFault
    ensures { IsUnequal result }
{
    match Text::copy_of(alloc, NO_EQUALS) {
        Ok(text) => CommandFault::Refused(text),
        Err(NoMemory) => CommandFault::Memory,
    }
}

/// What the arguments after the program's name ask for.
///
/// # Errors
///
/// `Help`: they ask for the help or the version. `Refused`: they have a fault. `Memory`: out of memory. The texts are clap's.
pub fn asked(alloc: Global, words: &[String]) -> Result<Asked, CommandFault>
    ensures asked { IfOk result (IsAskedFor (map string_bytes words.now)) }
    ensures fault { IfErr result (IsFaultFor (map string_bytes words.now)) }
{
    if lacks_equals(words) {
        return Err(unequal(alloc));
    }
    let Ok(command) = command(alloc) else {
        return Err(CommandFault::Memory);
    };
    match command.try_get_matches_from(words) {
        Ok(matches) => match read_matches(alloc, &matches) {
            Ok(asked) => Ok(asked),
            Err(NoMemory) => Err(CommandFault::Memory),
        },
        Err(error) => Err(answer_to(alloc, error)),
    }
}

/// The values of a parsed command line.
fn read_matches(alloc: Global, matches: &ArgMatches<'_>) -> Result<Asked, NoMemory>
    ensures { IfOk result (IsAskedBy (rows_of (found_of matches.now))) }
{
    Ok(Asked {
        given: read_names(alloc, matches, "STATEMENT")?,
        paid: read_names(alloc, matches, "paid")?,
        lists: read_names(alloc, matches, "paid-from")?,
        rules: Rules {
            with_remarks: is_set(matches, "with-remarks"),
            unsealed: is_set(matches, "unsealed"),
            same_message: is_set(matches, "same-message"),
        },
        output: read_file_name(alloc, matches, "output")?,
    })
}
