//! The columns of a statement by their names.

ghost use Rattle.std.specs.Prelude.{◌≡◌, ℕ, List, Some, None, OnOk, IfOk, fold, if◌then◌else◌};
ghost use Rattle.std.specs.Option.{option_or, option_map};
ghost use Rattle.std.specs.Str.{str_to_ascii_lowercase};
ghost use Rattle.std.specs.Hash as fed;
ghost use Rattle.std.specs.Cmp.Rules.{comparing, hashing};
ghost use Rattle.std.proofs.Common.{rules};
ghost use Rattle.rx_value.specs.Names.{same_name};
ghost use Rattle.rx_schema.specs.Given.{columns_in};
ghost use Rattle.rx_schema.specs.Profile.{column_named};
ghost use Rattle.rx_schema.specs.Lookup.{name_input, texts_of, by_name, IsTextsOf};

use crate::types::{TypeWord, characters, type_word};
use indexmap::IndexMap;
use rx_ddl::{ColumnDefinition, CreateDefinition};
use rx_value::same_name;
use std::alloc::{AllocError, Global};
use std::hash::{Hash, Hasher};
use std::marker::Model;

/// A name as the key of a map: names that differ in case alone are the same.
#[derive(Clone, Copy)]
pub(crate) struct NameKey<'a> {
    name: &'a [u8],
}

impl<'a> PartialEq for NameKey<'a> {
    ghost eq = { λ a b. same_name a.name.now b.name.now };

    ghost laws = { Prim.search (comparing, rules) };

    fn eq(&self, other: &NameKey<'a>) -> bool {
        same_name(self.name, other.name)
    }
}

impl<'a> Eq for NameKey<'a> {
    ghost laws = { Prim.search (comparing, rules) };
}

impl<'a> Hash for NameKey<'a> {
    ghost hash_input = { λ a. fed.slice fed.u8 (str_to_ascii_lowercase a.name.now) };

    ghost respects_eq = { Prim.search (hashing, rules) };

    fn hash<H: Hasher>(&self, state: &mut H) {
        state.write_usize(self.name.len());
        hash_lowered(self.name, state);
    }
}

fn hash_lowered<H: Hasher>(name: &[u8], state: &mut H)
    ensures { state.new ≡ fold H.write state.old (name_input name.now) }
{
    for byte in name {
        state.write_u8(byte.to_ascii_lowercase());
    }
}

/// What a column says of prefix lengths: the word of its type, and its number of characters where that is read.
#[derive(Clone, Copy)]
pub(crate) struct Texts {
    pub word: TypeWord,
    pub most: Option<u32>,
}

fn texts_of(column: &ColumnDefinition) -> Texts
    ensures { result ≡ texts_of column.now }
{
    Texts {
        word: type_word(column.kind.as_slice()),
        most: characters(column.arguments.as_slice()),
    }
}

// Notes a column, where none of its name was noted before.
fn note_first<'a>(
    texts: &mut IndexMap<NameKey<'a>, Texts>,
    column: &'a ColumnDefinition,
) -> Result<(), AllocError>
    ensures { OnOk result ((n : List ℕ) → by_name texts.new n ≡ option_or (by_name texts.old n) (if same_name column.now.name n then Some (texts_of column.now) else None)) }
{
    let key = NameKey {
        name: column.name.as_slice(),
    };
    if texts.get(&key).is_none() {
        texts.insert(key, texts_of(column))?;
    }
    Ok(())
}

fn texts_by_name<'a>(
    alloc: Global,
    items: &'a [CreateDefinition],
) -> Result<IndexMap<NameKey<'a>, Texts>, AllocError>
    ensures { IfOk result (IsTextsOf (columns_in items.now)) }
{
    let mut texts = IndexMap::new(alloc);
    for item in items {
        match item {
            CreateDefinition::Column(column) => note_first(&mut texts, column)?,
            CreateDefinition::Key(_) => {}
        }
    }
    Ok(texts)
}

/// The columns of a statement, found by their names, each name at its first column.
#[derive(Drop)]
pub(crate) struct Columns<'a> {
    items: &'a [CreateDefinition],
    texts: IndexMap<NameKey<'a>, Texts>,
}

impl<'a> Model for Columns<'a> {
    ghost use Rattle.std.specs.Prelude.{List};
    ghost use Rattle.rx_ddl.specs.declared.statements.ColumnDefinition.{ColumnDefinition};
    ghost use Rattle.rx_schema.specs.Given.{columns_in};
    ghost use Rattle.rx_schema.specs.Lookup.{IsTextsOf};

    ghost Value = { List ColumnDefinition };

    ghost view = { λ c. columns_in c.items.now };

    ghost invariant = { λ c. IsTextsOf (columns_in c.items.now) c.texts };
}

impl<'a> Columns<'a> {
    /// The columns among these items. The error is want of memory.
    pub(crate) fn of(
        alloc: Global,
        items: &'a [CreateDefinition],
    ) -> Result<Columns<'a>, AllocError>
        ensures { IfOk result (λ columns. columns ≡ columns_in items.now) }
    {
        let texts = texts_by_name(alloc, items)?;
        Ok(Columns { items, texts })
    }

    /// What the first column of a name says of prefix lengths.
    pub(crate) fn texts(&self, name: &[u8]) -> Option<Texts>
        ensures { result ≡ option_map texts_of (column_named self.now name.now) }
    {
        self.texts.get(&NameKey { name }).copied()
    }
}
