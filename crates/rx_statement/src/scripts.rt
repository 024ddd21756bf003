ghost use Rattle.std.specs.Prelude.{◌≡◌, ◌≤◌, [], ◌∷◌, ◌++◌, length, map, All, IfOk, IfErr, OnOk};
ghost use Rattle.rx_value.specs.Limits.{most_columns};
ghost use Rattle.std.specs.Option.{option_map};
ghost use Rattle.rx_script.specs.Statements.{written_of};
ghost use Rattle.rx_query.specs.Steps.{request_of, step_of, SelectsWithin};
ghost use Rattle.rx_statement.specs.Outcomes.{Answers};
ghost use Rattle.rx_query.specs.Questions.{IsStep};
ghost use Rattle.rx_statement.specs.Script.{JudgesAs, verdict_of, judged, verdict_if, is_whole, parts_from, outcome_of, read_of};

use crate::asking::asked;
use crate::changes::changed;
use crate::faults::{ScriptFault, What};
use rx_query::{Numbered, Script, Statement};
use rx_script::{RawStatement, read_segment, segments};
use rx_token::{Token, tokens};
use rx_value::Schema;
use std::alloc::{AllocError, Global};

/// What comes of a segment: a statement, none where it is empty, or why it is refused.
type Verdict = Result<Option<Statement>, What>;

/// What comes of a statement as it is written.
fn verdict_of(
    alloc: Global,
    schema: &Schema,
    statement: Option<RawStatement>,
) -> Result<Verdict, AllocError>
    requires { length schema.now.columns ≤ most_columns }
    ensures { IfOk result (JudgesAs (verdict_of schema.now (option_map written_of statement))) }
{
    match statement {
        None => Ok(Err(What::NotInGrammar)),
        Some(RawStatement::Query(select)) => match asked(alloc, schema, &select)? {
            Ok(question) => Ok(Ok(Some(Statement::Query(question)))),
            Err(what) => Ok(Err(what)),
        },
        Some(RawStatement::Change(settings)) => match changed(alloc, settings.as_slice())? {
            Ok(list) => Ok(Ok(Some(Statement::Change(list)))),
            Err(what) => Ok(Err(what)),
        },
    }
}

/// What comes of the tokens of a segment.
fn judged(alloc: Global, schema: &Schema, tokens: &[Token]) -> Result<Verdict, AllocError>
    requires { length schema.now.columns ≤ most_columns }
    ensures { IfOk result (JudgesAs (judged schema.now tokens.now)) }
{
    if tokens.is_empty() {
        return Ok(Ok(None));
    }
    let statement = read_segment(alloc, tokens)?;
    verdict_of(alloc, schema, statement)
}

/// What comes of a segment that is tokens to its end, or that ends at a place that no token fits.
fn verdict_if(
    alloc: Global,
    schema: &Schema,
    whole: bool,
    tokens: &[Token],
) -> Result<Verdict, AllocError>
    requires { length schema.now.columns ≤ most_columns }
    ensures { IfOk result (JudgesAs (verdict_if whole (judged schema.now tokens.now))) }
{
    if whole {
        return judged(alloc, schema, tokens);
    }
    Ok(Err(What::NotAToken))
}

/// Whether a segment before others is tokens to its end.
fn is_whole(bad: Option<u64>, others: &[&[Token]]) -> bool
    ensures { result ≡ is_whole bad (map (λ segment. segment.now) others.now) }
{
    bad.is_none() || !others.is_empty()
}

/// Adds a statement at the end.
fn add(script: &mut Script, number: u64, statement: Statement) -> Result<(), ScriptFault>
    ensures ok { OnOk result (map step_of script.new ≡ map step_of script.old ++ record { number = number; request = request_of statement } ∷ []) }
    ensures err { IfErr result (λ fault. fault ≡ ScriptFault.NoMemory) }
{
    match script.push(Numbered { number, statement }) {
        Ok(()) => Ok(()),
        Err(_) => Err(ScriptFault::NoMemory),
    }
}

/// The statements of segments, or the first segment that is refused.
fn steps_of(
    alloc: Global,
    schema: &Schema,
    bad: Option<u64>,
    segments: &[&[Token]],
) -> Result<Script, ScriptFault>
    requires { length schema.now.columns ≤ most_columns }
    ensures { Answers (outcome_of schema.now (parts_from 1 bad (map (λ segment. segment.now) segments.now))) result }
{
    let mut script = Script::new(alloc);
    let mut number = 1;
    let mut rest = segments;
    'segments: loop {
        let [segment, others @ ..] = rest else {
            return Ok(script);
        };
        let Ok(verdict) = verdict_if(alloc, schema, is_whole(bad, others), *segment) else {
            return Err(ScriptFault::NoMemory);
        };
        match verdict {
            Ok(Some(statement)) => add(&mut script, number, statement)?,
            Ok(None) => {}
            Err(what) => {
                return Err(ScriptFault::Bad {
                    statement: number,
                    what,
                });
            }
        }
        number += 1;
        rest = others;
    }
}

#[tactic(auto, unfolding(crate::specs::Script::read_of))]
fn read_whole(alloc: Global, text: &[u8], schema: &Schema) -> Result<Script, ScriptFault>
    requires { length schema.now.columns ≤ most_columns }
    ensures { Answers (read_of schema.now text.now) result }
{
    let Ok(scanned) = tokens(alloc, text) else {
        return Err(ScriptFault::NoMemory);
    };
    let Ok(list) = segments(alloc, scanned.list.as_slice()) else {
        return Err(ScriptFault::NoMemory);
    };
    steps_of(alloc, schema, scanned.bad, list.as_slice())
}

/// The statements of a script over a table, each with the number of its segment. Segments stand between semicolons and
/// are counted from 1; an empty one holds no statement, and counts.
///
/// A SELECT has columns, COUNT, SUM, MIN and MAX, DISTINCT, WHERE, GROUP BY, ORDER BY, and the hints USE INDEX and
/// IGNORE INDEX; a SET has `optimizer_switch`, `eq_range_index_dive_limit`, `range_optimizer_max_mem_size` and
/// `optimizer_trace`. Names are compared without ASCII case.
///
/// # Errors
///
/// `Bad`: the first segment that is refused, with the first of these causes.
///
/// - `NotAToken`: there is a place in it that no token fits.
/// - `NotInGrammar`: it is no SELECT and no SET.
/// - `UnknownName`: the first name in the order of the text that names nothing. The name behind FROM is the table's,
///   those in hints are of indexes, all others of columns. A number in ORDER BY is a place in the select list from 1,
///   and another number is an unknown name by its digits.
/// - `BadSetting`: the first setting in the order of the text that there isn't, or that takes no such value.
/// - `TypeMismatch`: two sides of a test that aren't NULL are of different kinds, LIKE stands on a column of integers,
///   or SUM on one of texts.
/// - `NotGrouped`: where there is GROUP BY or an aggregate, a column of the select list outside an aggregate or of ORDER
///   BY isn't in GROUP BY; or with DISTINCT, a column of ORDER BY isn't in the select list.
///
/// `NoMemory`: there was no memory for the script.
pub fn read_script(alloc: Global, text: &[u8], schema: &Schema) -> Result<Script, ScriptFault>
    requires { length schema.now.columns ≤ most_columns }
    ensures exact { Answers (read_of schema.now text.now) result }
    ensures columns { IfOk result (All (SelectsWithin (length schema.now.columns))) }
    ensures asks { IfOk result (All (λ numbered. IsStep schema.now (step_of numbered))) }
{
    read_whole(alloc, text, schema)
}
