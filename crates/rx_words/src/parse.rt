ghost use Rattle.std.specs.Prelude.{◌≡◌, IfOk, List, Some, false, map, option_map, string_bytes};
ghost use Rattle.clap.specs.Words.{app_of, fault_of, found_of, matches_of, new_rule, rows_of, rule_of};
ghost use Rattle.rx_words.specs.Reading.{empty_app, slots_in, slots_of, stats_rule, taken, words_app};

use clap::error::ErrorKind;
use clap::{Arg, ArgMatches, Command};
use std::alloc::{AllocError, Global};

// What stands behind a command: its operands in order, and the file of statistics.
#[derive(Clone, Copy)]
pub(crate) struct Given<'a> {
    pub(crate) first: Option<&'a str>,
    pub(crate) second: Option<&'a str>,
    pub(crate) third: Option<&'a str>,
    pub(crate) statistics: Option<&'a str>,
}

// What `clap` makes of the words behind a command.
pub(crate) fn given_words<'a>(
    alloc: Global,
    words: &'a [String],
) -> Result<Option<Given<'a>>, AllocError>
    ensures { IfOk result (λ given. option_map slots_of given
        ≡ taken (fault_of words_app (map string_bytes words.now)) (matches_of words_app (map string_bytes words.now))) }
{
    let command = words_command(alloc)?;
    match command.try_get_matches_from(words) {
        Ok(matches) => Ok(Some(given_in(&matches))),
        Err(error) => {
            if error.kind() == ErrorKind::OutOfMemory {
                Err(AllocError)
            } else {
                Ok(None)
            }
        }
    }
}

// The most operands of a command, and `--stats FILE`, as `clap` knows them. How many operands a command takes, and
// whether it takes statistics, is not said here.
fn words_command<'a>(alloc: Global) -> Result<Command<'a>, AllocError>
    ensures { IfOk result (λ command. app_of command ≡ words_app) }
{
    let first = empty_command(alloc).arg(operand(alloc, "first"))?;
    let second = first.arg(operand(alloc, "second"))?;
    let third = second.arg(operand(alloc, "third"))?;
    let whole = third.arg(statistics(alloc))?;
    Ok(whole)
}

fn empty_command<'a>(alloc: Global) -> Command<'a>
    ensures { app_of result ≡ empty_app }
{
    Command::new(alloc, "yogfrid")
        .no_binary_name(true)
        .disable_help_flag(true)
        .disable_version_flag(true)
}

fn operand<'a>(alloc: Global, id: &'a str) -> Arg<'a>
    ensures rule { rule_of result ≡ new_rule id.entry.now }
    ensures local { result.global ≡ false }
{
    Arg::new(alloc, id)
}

fn statistics<'a>(alloc: Global) -> Arg<'a>
    ensures rule { rule_of result ≡ stats_rule }
    ensures local { result.global ≡ false }
{
    Arg::new(alloc, "stats").long("stats")
}

fn given_in<'a>(matches: &ArgMatches<'a>) -> Given<'a>
    ensures { slots_of result ≡ slots_in (rows_of (found_of matches.now)) }
{
    Given {
        first: matches.get_str("first"),
        second: matches.get_str("second"),
        third: matches.get_str("third"),
        statistics: matches.get_str("stats"),
    }
}
