ghost use Rattle.std.specs.Prelude.{◌≡◌, length, drop, ◌-◌, codes, [], ◌∷◌, IfOk};
ghost use Rattle.std.specs.List.{list_any};
ghost use Rattle.rx_schema.specs.Given.{first_given, last_given, columns_in};
ghost use Rattle.rx_schema.specs.Profile.{is_unsigned, is_zerofill, is_collation, is_character_set, own_collation, own_character_set, ends_in, ends_in_collate, ends_in_character_set, table_collation, table_character_set, defaults_of, is_another, takes_another_collation, takes_another_character_set, text_misfit, column_misfit, kind_misfit, takes_prefix, part_misfit, method_misfit, key_misfit, item_misfit, first_misfit};

use crate::faults::Which;
use crate::lookup::{Columns, Texts};
use crate::types::{TypeWord, characters, type_word};
use rx_ddl::{
    Attribute, ColumnDefinition, CreateDefinition, CreateTable, KeyDefinition, KeyKind, KeyPart,
    Method, TableOption,
};
use rx_value::{Bytes, same_name};
use std::alloc::{AllocError, Global};

/// Whether the collation and the character set that a table's options name last are the ones that are read, where
/// they name any.
#[derive(Clone, Copy)]
pub(crate) struct Defaults {
    pub collation: Option<bool>,
    pub character_set: Option<bool>,
}

#[tactic(auto, unfolding(crate::specs::Profile::is_collation))]
fn is_collation(name: &[u8]) -> bool
    ensures { result ≡ is_collation name.now }
{
    same_name(name, b"utf8mb4_0900_bin")
}

#[tactic(auto, unfolding(crate::specs::Profile::is_character_set))]
fn is_character_set(name: &[u8]) -> bool
    ensures { result ≡ is_character_set name.now }
{
    same_name(name, b"utf8mb4")
}

/// The last words, so many or all.
fn last_words(words: &[Bytes], count: usize) -> &[Bytes]
    ensures { result.now ≡ drop (length words.now - count) words.now }
{
    &words[words.len().saturating_sub(count)..]
}

fn ends_in_collate(words: &[Bytes]) -> bool
    ensures { result ≡ ends_in_collate words.now }
{
    match last_words(words, 1) {
        [word] => same_name(b"COLLATE", word.as_slice()),
        _ => false,
    }
}

fn ends_in_charset(words: &[Bytes]) -> bool
    ensures { result ≡ ends_in words.now (codes "CHARSET" ∷ []) }
{
    match last_words(words, 1) {
        [word] => same_name(b"CHARSET", word.as_slice()),
        _ => false,
    }
}

fn ends_in_character_set(words: &[Bytes]) -> bool
    ensures { result ≡ ends_in_character_set words.now }
{
    if ends_in_charset(words) {
        return true;
    }
    match last_words(words, 2) {
        [first, last] => same_name(b"CHARACTER", first.as_slice())
            && same_name(b"SET", last.as_slice()),
        _ => false,
    }
}

#[tactic(auto, unfolding(crate::specs::Profile::table_collation))]
fn table_collation(option: &TableOption) -> Option<bool>
    ensures { result ≡ table_collation option.now }
{
    if ends_in_collate(option.words.as_slice()) {
        Some(is_collation(option.value.as_slice()))
    } else {
        None
    }
}

#[tactic(auto, unfolding(crate::specs::Profile::table_character_set))]
fn table_character_set(option: &TableOption) -> Option<bool>
    ensures { result ≡ table_character_set option.now }
{
    if ends_in_character_set(option.words.as_slice()) {
        Some(is_character_set(option.value.as_slice()))
    } else {
        None
    }
}

fn last_collation(options: &[TableOption]) -> Option<bool>
    ensures { result ≡ last_given table_collation options.now }
{
    let mut last = None;
    for option in options {
        last = table_collation(option).or(last);
    }
    last
}

fn last_character_set(options: &[TableOption]) -> Option<bool>
    ensures { result ≡ last_given table_character_set options.now }
{
    let mut last = None;
    for option in options {
        last = table_character_set(option).or(last);
    }
    last
}

/// What the options of a table say of its `varchar` columns. The last option of a kind counts.
#[tactic(auto, unfolding(crate::specs::Profile::defaults_of))]
fn defaults_of(options: &[TableOption]) -> Defaults
    ensures { result ≡ defaults_of options.now }
{
    Defaults {
        collation: last_collation(options),
        character_set: last_character_set(options),
    }
}

fn is_unsigned(attribute: &Attribute) -> bool
    ensures { result ≡ is_unsigned attribute.now }
{
    matches!(attribute, Attribute::Unsigned)
}

/// Whether UNSIGNED is one of the attributes.
pub(crate) fn has_unsigned(attributes: &[Attribute]) -> bool
    ensures { result ≡ list_any is_unsigned attributes.now }
{
    attributes.iter().any(|a| is_unsigned(a))
}

fn is_zerofill(attribute: &Attribute) -> bool
    ensures { result ≡ is_zerofill attribute.now }
{
    matches!(attribute, Attribute::Zerofill)
}

fn has_zerofill(attributes: &[Attribute]) -> bool
    ensures { result ≡ list_any is_zerofill attributes.now }
{
    attributes.iter().any(|a| is_zerofill(a))
}

fn own_collation(attribute: &Attribute) -> Option<bool>
    ensures { result ≡ own_collation attribute.now }
{
    match attribute {
        Attribute::Collate(name) => Some(is_collation(name.as_slice())),
        _ => None,
    }
}

fn own_character_set(attribute: &Attribute) -> Option<bool>
    ensures { result ≡ own_character_set attribute.now }
{
    match attribute {
        Attribute::CharacterSet(name) => Some(is_character_set(name.as_slice())),
        _ => None,
    }
}

fn is_another(one: Option<bool>) -> bool
    ensures { result ≡ is_another one }
{
    matches!(one, Some(false))
}

/// Whether a column's own collation, else the table's, is another than the one that is read.
fn takes_another_collation(defaults: Defaults, attributes: &[Attribute]) -> bool
    ensures { result ≡ takes_another_collation defaults attributes.now }
{
    let mut own = None;
    for attribute in attributes {
        own = own_collation(attribute).or(own);
    }
    is_another(own.or(defaults.collation))
}

/// The same of its character set.
fn takes_another_character_set(defaults: Defaults, attributes: &[Attribute]) -> bool
    ensures { result ≡ takes_another_character_set defaults attributes.now }
{
    let mut own = None;
    for attribute in attributes {
        own = own_character_set(attribute).or(own);
    }
    is_another(own.or(defaults.character_set))
}

#[tactic(auto, unfolding(crate::specs::Profile::text_misfit))]
fn text_misfit(defaults: Defaults, column: &ColumnDefinition) -> Option<Which>
    ensures { result ≡ text_misfit defaults column.now }
{
    let attributes = column.attributes.as_slice();
    if has_unsigned(attributes) {
        Some(Which::ColumnType)
    } else if characters(column.arguments.as_slice()).is_none() {
        Some(Which::Length)
    } else if has_zerofill(attributes) {
        Some(Which::Zerofill)
    } else if takes_another_collation(defaults, attributes) {
        Some(Which::Collation)
    } else if takes_another_character_set(defaults, attributes) {
        Some(Which::CharacterSet)
    } else {
        None
    }
}

fn column_misfit(defaults: Defaults, column: &ColumnDefinition) -> Option<Which>
    ensures { result ≡ column_misfit defaults column.now }
{
    match type_word(column.kind.as_slice()) {
        TypeWord::Whole { bits: _ } => if has_zerofill(column.attributes.as_slice()) {
            Some(Which::Zerofill)
        } else {
            None
        },
        TypeWord::VarChar => text_misfit(defaults, column),
        TypeWord::Other => Some(Which::ColumnType),
    }
}

fn kind_misfit(kind: KeyKind) -> Option<Which>
    ensures { result ≡ kind_misfit kind }
{
    match kind {
        KeyKind::Fulltext | KeyKind::Spatial => Some(Which::KeyKind),
        _ => None,
    }
}

/// Whether a column takes a prefix length: a `varchar`, and a length from 1 to its characters, where these are read.
fn takes_prefix(texts: Texts, count: u128) -> bool
    ensures { result ≡ takes_prefix texts.word texts.most count }
{
    match (texts.word, texts.most) {
        (TypeWord::VarChar, Some(most)) => 1 <= count && count <= most as u128,
        (TypeWord::VarChar, None) => true,
        _ => false,
    }
}

/// What a part of a key has that is outside the profile: a prefix length that its column doesn't take.
fn part_misfit(columns: &Columns, part: &KeyPart) -> Option<Which>
    ensures { result ≡ part_misfit columns.now part.now }
{
    let Some(count) = part.prefix else {
        return None;
    };
    match columns.texts(part.column.as_slice()) {
        Some(texts) if !takes_prefix(texts, count) => Some(Which::Prefix),
        _ => None,
    }
}

fn first_part_misfit(columns: &Columns, parts: &[KeyPart]) -> Option<Which>
    ensures { result ≡ first_given (part_misfit columns.now) parts.now }
{
    for part in parts {
        if let Some(which) = part_misfit(columns, part) {
            return Some(which);
        }
    }
    None
}

fn method_misfit(method: &Method) -> Option<Which>
    ensures { result ≡ method_misfit method.now }
{
    match method {
        Method::Using(word) if !same_name(word.as_slice(), b"BTREE") => Some(Which::KeyKind),
        _ => None,
    }
}

fn first_method_misfit(methods: &[Method]) -> Option<Which>
    ensures { result ≡ first_given method_misfit methods.now }
{
    for method in methods {
        if let Some(which) = method_misfit(method) {
            return Some(which);
        }
    }
    None
}

#[tactic(auto, unfolding(crate::specs::Profile::key_misfit))]
fn key_misfit(columns: &Columns, key: &KeyDefinition) -> Option<Which>
    ensures { result ≡ key_misfit columns.now key.now }
{
    kind_misfit(key.kind)
        .or(first_part_misfit(columns, key.parts.as_slice()))
        .or(first_method_misfit(key.methods.as_slice()))
}

fn item_misfit(defaults: Defaults, columns: &Columns, item: &CreateDefinition) -> Option<Which>
    ensures { result ≡ item_misfit defaults columns.now item.now }
{
    match item {
        CreateDefinition::Column(column) => column_misfit(defaults, column),
        CreateDefinition::Key(key) => key_misfit(columns, key),
    }
}

fn first_item_misfit(
    defaults: Defaults,
    columns: &Columns,
    items: &[CreateDefinition],
) -> Option<Which>
    ensures { result ≡ first_given (item_misfit defaults columns.now) items.now }
{
    for item in items {
        if let Some(which) = item_misfit(defaults, columns, item) {
            return Some(which);
        }
    }
    None
}

#[tactic(auto, unfolding(crate::specs::Profile::first_misfit))]
fn first_misfit_among(columns: &Columns, create: &CreateTable) -> Option<Which>
    requires { columns.now ≡ columns_in create.now.definitions }
    ensures { result ≡ first_misfit create.now }
{
    let defaults = defaults_of(create.options.as_slice());
    first_item_misfit(defaults, columns, create.definitions.as_slice())
}

/// The first place, in the order of the text, that is outside the profile of tables that are read. All that a column
/// has stands at its name, and there the order is that of `Which`. The error is want of memory.
pub(crate) fn first_misfit(alloc: Global, create: &CreateTable) -> Result<Option<Which>, AllocError>
    ensures { IfOk result (λ which. which ≡ first_misfit create.now) }
{
    let columns = Columns::of(alloc, create.definitions.as_slice())?;
    Ok(first_misfit_among(&columns, create))
}
