ghost use Rattle.std.specs.Prelude.{◌≡◌, ℕ, List, Some, None, IfOk};
ghost use Rattle.std.specs.Result.{IsErrOf};
ghost use Rattle.std.specs.List.{list_any};
ghost use Rattle.rx_reading.specs.Reading.{Passes, Reads};
ghost use Rattle.rx_ddl.specs.declared.statements.CreateTable.{CreateTable as statement};
ghost use Rattle.rx_ddl.specs.StatementForms.{IsCreate, IsNoCreate};
ghost use Rattle.rx_ddl.specs.Create.{definition_at, is_column, after_create, create_at, create_form};

use crate::columns::column_at;
use crate::faults::CreateFault;
use crate::keys::{key_at, key_kind_at};
use crate::options::options_at;
use crate::statements::{CreateDefinition, CreateTable};
use rx_reading::{Item, Read, Reading, after_word, enclosed_at, is_end, name_at};
use rx_token::{Token, tokens};
use rx_value::Bytes;
use std::alloc::{AllocError, Global};

/// A column or a key, and the tokens behind it.
#[tactic(auto, unfolding(crate::specs::Create::definition_at))]
fn definition_at<'a>(alloc: Global, tokens: &'a [Token]) -> Reading<'a, CreateDefinition>
    ensures { IfOk result (Reads definition_at tokens.now) }
{
    if let Some(kind) = key_kind_at(tokens) {
        let Some(key) = key_at(alloc, kind.value, kind.rest)? else {
            return Ok(None);
        };
        return Ok(Some(Read {
            value: CreateDefinition::Key(key.value),
            rest: key.rest,
        }));
    }
    let Some(column) = column_at(alloc, tokens)? else {
        return Ok(None);
    };
    Ok(Some(Read {
        value: CreateDefinition::Column(column.value),
        rest: column.rest,
    }))
}

/// Reads a column or a key.
struct Definitions;

impl Item for Definitions {
    type Value = CreateDefinition;

    ghost reader = { λ item. definition_at };

    fn read_at<'a>(&self, alloc: Global, tokens: &'a [Token]) -> Reading<'a, CreateDefinition> {
        definition_at(alloc, tokens)
    }
}

fn is_column(definition: &CreateDefinition) -> bool
    ensures { result ≡ is_column definition.now }
{
    matches!(definition, CreateDefinition::Column(_))
}

fn has_column(definitions: &[CreateDefinition]) -> bool
    ensures { result ≡ list_any is_column definitions.now }
{
    definitions.iter().any(|definition| is_column(definition))
}

/// The tokens behind CREATE TABLE.
fn after_create(tokens: &[Token]) -> Option<&[Token]>
    ensures { Passes after_create tokens.now result }
{
    let Some(behind) = after_word(tokens, b"CREATE") else {
        return None;
    };
    after_word(behind, b"TABLE")
}

/// The statement that the tokens are.
#[tactic(auto, unfolding(crate::specs::Create::create_at))]
fn create_at(alloc: Global, tokens: &[Token]) -> Result<Option<CreateTable>, AllocError>
    ensures { IfOk result (λ o. o ≡ create_at tokens.now) }
{
    let Some(behind) = after_create(tokens) else {
        return Ok(None);
    };
    let Some(name) = name_at(behind) else {
        return Ok(None);
    };
    let Some(definitions) = enclosed_at(alloc, &Definitions, name.rest)? else {
        return Ok(None);
    };
    let options = options_at(alloc, definitions.rest)?;
    if !is_end(options.rest) || !has_column(definitions.value.as_slice()) {
        return Ok(None);
    }
    Ok(Some(CreateTable {
        table: Bytes::of(alloc, name.value)?,
        definitions: definitions.value,
        options: options.value,
    }))
}

fn read_whole(alloc: Global, text: &[u8]) -> Result<CreateTable, CreateFault>
    ensures exact { IfOk result (λ c. create_form text.now ≡ Some c) }
    ensures refused { IsErrOf result CreateFault.NotInGrammar → create_form text.now ≡ None }
{
    let Ok(scanned) = tokens(alloc, text) else {
        return Err(CreateFault::NoMemory);
    };
    if scanned.bad.is_some() {
        return Err(CreateFault::NotInGrammar);
    }
    match create_at(alloc, scanned.list.as_slice()) {
        Ok(Some(statement)) => Ok(statement),
        Ok(None) => Err(CreateFault::NotInGrammar),
        Err(_) => Err(CreateFault::NoMemory),
    }
}

/// The CREATE TABLE statement that the text is, as SHOW CREATE TABLE writes it, with or without a
/// semicolon at its end: columns with their types, arguments and attributes; PRIMARY, UNIQUE, FULLTEXT,
/// SPATIAL and plain keys with parts, prefix lengths, ASC and DESC; and the table's options. It has at
/// least one column. Nothing is asked of types, names and lengths here. Time and memory are linear in
/// the text.
///
/// [MySQL 8.0, "CREATE TABLE Statement"](https://dev.mysql.com/doc/refman/8.0/en/create-table.html)
///
/// # Errors
///
/// `NotInGrammar`: there is a byte that no token fits, or the tokens aren't such a statement.
/// `NoMemory`: there was no memory for it.
#[tactic(auto, using(crate::proofs::StatementLaws::answer_found))]
pub fn read_create(alloc: Global, text: &[u8]) -> Result<CreateTable, CreateFault>
    ensures exact { IfOk result (λ c. create_form text.now ≡ Some c) }
    ensures refused { IsErrOf result CreateFault.NotInGrammar → create_form text.now ≡ None }
    ensures found { IfOk result (IsCreate text.now) }
    ensures none { IsErrOf result CreateFault.NotInGrammar → IsNoCreate text.now }
{
    read_whole(alloc, text)
}

/// Two derivations of one text stand for one statement.
pub fn one_statement()
    ensures { (text : List ℕ) (a b : statement) → IsCreate text a → IsCreate text b → a ≡ b }
{}
