ghost use Rattle.std.specs.Prelude.{◌≡◌, IfOk, List, ◌∷◌, map, option_map, string_bytes};
ghost use Rattle.rx_words.specs.Words.{files_of, task, task_of};
ghost use Rattle.rx_words.specs.Reading.{select_given, slots_of, task_given};

use crate::checks::are_usual;
use crate::parse::{Given, given_words};
use std::alloc::{AllocError, Global};

/// What the words ask for.
#[derive(Clone, Copy)]
pub enum Command<'a> {
    /// `select SCHEMA DATA SCRIPT [--stats FILE]`
    Select(SelectWords<'a>),
}

/// The names of the files of `select`.
#[derive(Clone, Copy)]
pub struct SelectWords<'a> {
    pub schema: &'a str,
    pub data: &'a str,
    pub script: &'a str,
    /// The file of statistics, where one is named.
    pub statistics: Option<&'a str>,
}

/// The command of the words after the program's name, or `None` where they have no command's form.
///
/// The first word is the command. Of the others `--stats` takes the next word, which must be there and not begin with
/// `-`, and `--stats=FILE` a FILE that isn't empty; at most one of the two stands, anywhere behind the command. What is
/// left are the operands, as many as the command takes. An empty word and any other word that begins with `-` has no
/// place. An error is want of memory.
pub fn command_of<'a>(alloc: Global, words: &'a [String]) -> Result<Option<Command<'a>>, AllocError>
    ensures { IfOk result (λ command. option_map task command ≡ task_of (map string_bytes words.now)) }
{
    match words {
        [] => Ok(None),
        [name, behind @ ..] => command_named(alloc, name.as_str(), behind),
    }
}

// The command of a name and the words behind it.
fn command_named<'a>(
    alloc: Global,
    name: &str,
    words: &'a [String],
) -> Result<Option<Command<'a>>, AllocError>
    ensures { IfOk result (λ command. option_map task command ≡ task_of (name.now ∷ map string_bytes words.now)) }
{
    if !are_usual(words) {
        return Ok(None);
    }
    match given_words(alloc, words) {
        Ok(Some(given)) => Ok(with_given(name, &given)),
        Ok(None) => Ok(None),
        Err(error) => Err(error),
    }
}

// The command of a name, where it takes what is given.
fn with_given<'a>(name: &str, given: &Given<'a>) -> Option<Command<'a>>
    ensures { option_map task result ≡ task_given name.now (slots_of given.now) }
{
    if name == "select" {
        match select_words(given) {
            Some(words) => Some(Command::Select(words)),
            None => None,
        }
    } else {
        None
    }
}

fn select_words<'a>(given: &Given<'a>) -> Option<SelectWords<'a>>
    ensures { option_map files_of result ≡ select_given (slots_of given.now).first (slots_of given.now).second
        (slots_of given.now).third (slots_of given.now).statistics }
{
    match (given.first, given.second, given.third) {
        (Some(schema), Some(data), Some(script)) => Some(SelectWords {
            schema,
            data,
            script,
            statistics: given.statistics,
        }),
        _ => None,
    }
}
