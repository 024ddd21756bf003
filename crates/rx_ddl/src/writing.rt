ghost use Rattle.std.specs.Prelude.{◌≡◌, ◌++◌, ◌∷◌, [], codes, Some, IfOk, OnOk};
ghost use Rattle.std.specs.List.{flat_map};
ghost use Rattle.rx_ddl.specs.declared.statements.CreateTable.{CreateTable as statement};
ghost use Rattle.rx_ddl.specs.Create.{create_form};
ghost use Rattle.rx_ddl.specs.Canonical.{doubled_byte, quoted, parted, argument_text, arguments_text, attribute_text, column_text, key_front, prefix_text, direction_text, part_text, key_text, definition_text, canonical, IsCanonical};

use crate::statements::{
    Argument, Attribute, ColumnDefinition, CreateDefinition, CreateTable, KeyDefinition, KeyKind,
    KeyPart,
};
use itoa::Buffer;
use rx_value::Bytes;
use std::alloc::{AllocError, Global};

fn write_name_byte(into: &mut Bytes, byte: u8) -> Result<(), AllocError>
    ensures { OnOk result (into.new ≡ into.old ++ doubled_byte byte) }
{
    if byte == b'`' {
        into.append(b"``")
    } else {
        into.push(byte)
    }
}

fn write_inside(into: &mut Bytes, name: &[u8]) -> Result<(), AllocError>
    ensures { OnOk result (into.new ≡ into.old ++ flat_map doubled_byte name.now) }
{
    for byte in name {
        write_name_byte(into, *byte)?;
    }
    Ok(())
}

/// A name between backquotes, with those in it doubled.
#[tactic(auto, using(crate::proofs::Doubled::quoted_by))]
fn write_name(into: &mut Bytes, name: &[u8]) -> Result<(), AllocError>
    ensures { OnOk result (into.new ≡ into.old ++ quoted name.now) }
{
    into.push(b'`')?;
    write_inside(into, name)?;
    into.push(b'`')?;
    Ok(())
}

fn write_argument(into: &mut Bytes, argument: &Argument) -> Result<(), AllocError>
    ensures { OnOk result (into.new ≡ into.old ++ argument_text argument.now) }
{
    match argument {
        Argument::Number(n) => into.append(Buffer::new().format(*n).as_bytes()),
        Argument::Text(_) => Ok(()),
    }
}

fn write_argument_list(into: &mut Bytes, arguments: &[Argument]) -> Result<(), AllocError>
    ensures { OnOk result (into.new ≡ into.old ++ parted argument_text (codes ",") arguments.now) }
{
    let Some((first, others)) = arguments.split_first() else {
        return Ok(());
    };
    write_argument(into, first)?;
    for other in others {
        into.push(b',')?;
        write_argument(into, other)?;
    }
    Ok(())
}

fn write_arguments(into: &mut Bytes, arguments: &[Argument]) -> Result<(), AllocError>
    ensures { OnOk result (into.new ≡ into.old ++ arguments_text arguments.now) }
{
    if arguments.is_empty() {
        return Ok(());
    }
    into.push(b'(')?;
    write_argument_list(into, arguments)?;
    into.push(b')')
}

fn attribute_text(attribute: &Attribute) -> &'static [u8]
    ensures { result.now ≡ attribute_text attribute.now }
{
    match attribute {
        Attribute::Unsigned => b" unsigned",
        Attribute::NotNull => b" NOT NULL",
        _ => b"",
    }
}

fn write_attributes(into: &mut Bytes, attributes: &[Attribute]) -> Result<(), AllocError>
    ensures { OnOk result (into.new ≡ into.old ++ flat_map attribute_text attributes.now) }
{
    for attribute in attributes {
        into.append(attribute_text(attribute))?;
    }
    Ok(())
}

fn write_column(into: &mut Bytes, column: &ColumnDefinition) -> Result<(), AllocError>
    ensures { OnOk result (into.new ≡ into.old ++ column_text column.now) }
{
    write_name(into, column.name.as_slice())?;
    into.push(b' ')?;
    into.append(column.kind.as_slice())?;
    write_arguments(into, column.arguments.as_slice())?;
    write_attributes(into, column.attributes.as_slice())
}

/// What stands before the parts of a key.
fn write_key_front(into: &mut Bytes, kind: KeyKind, name: &[u8]) -> Result<(), AllocError>
    ensures { OnOk result (into.new ≡ into.old ++ key_front kind name.now) }
{
    match kind {
        KeyKind::Primary => return into.append(b"PRIMARY KEY"),
        KeyKind::Unique => into.append(b"UNIQUE KEY ")?,
        _ => into.append(b"KEY ")?,
    }
    write_name(into, name)
}

/// A prefix length between parentheses, where there is one.
fn write_prefix(into: &mut Bytes, prefix: Option<u128>) -> Result<(), AllocError>
    ensures { OnOk result (into.new ≡ into.old ++ prefix_text prefix) }
{
    let Some(count) = prefix else {
        return Ok(());
    };
    into.push(b'(')?;
    into.append(Buffer::new().format(count).as_bytes())?;
    into.push(b')')
}

fn direction_text(descending: bool) -> &'static [u8]
    ensures { result.now ≡ direction_text descending }
{
    if descending { b" DESC" } else { b"" }
}

fn write_part(into: &mut Bytes, part: &KeyPart) -> Result<(), AllocError>
    ensures { OnOk result (into.new ≡ into.old ++ part_text part.now) }
{
    write_name(into, part.column.as_slice())?;
    write_prefix(into, part.prefix)?;
    into.append(direction_text(part.descending))
}

fn write_parts(into: &mut Bytes, parts: &[KeyPart]) -> Result<(), AllocError>
    ensures { OnOk result (into.new ≡ into.old ++ parted part_text (codes ",") parts.now) }
{
    let Some((first, others)) = parts.split_first() else {
        return Ok(());
    };
    write_part(into, first)?;
    for other in others {
        into.push(b',')?;
        write_part(into, other)?;
    }
    Ok(())
}

fn write_key(into: &mut Bytes, key: &KeyDefinition) -> Result<(), AllocError>
    ensures { OnOk result (into.new ≡ into.old ++ key_text key.now) }
{
    write_key_front(into, key.kind, key.name.as_slice())?;
    into.append(b" (")?;
    write_parts(into, key.parts.as_slice())?;
    into.push(b')')
}

fn write_definition(into: &mut Bytes, definition: &CreateDefinition) -> Result<(), AllocError>
    ensures { OnOk result (into.new ≡ into.old ++ definition_text definition.now) }
{
    into.append(b"  ")?;
    match definition {
        CreateDefinition::Column(column) => write_column(into, column),
        CreateDefinition::Key(key) => write_key(into, key),
    }
}

fn write_definitions(into: &mut Bytes, definitions: &[CreateDefinition]) -> Result<(), AllocError>
    ensures { OnOk result (into.new ≡ into.old ++ parted definition_text (codes ",\n") definitions.now) }
{
    let Some((first, others)) = definitions.split_first() else {
        return Ok(());
    };
    write_definition(into, first)?;
    for other in others {
        into.append(b",\n")?;
        write_definition(into, other)?;
    }
    Ok(())
}

/// The canonical text of a statement: ``CREATE TABLE `t` (``, then each column and key on a line of its
/// own with two spaces before and a comma behind all but the last, then `)`, each line ended by a line
/// feed. A column is its name, its type as it stands with numbers as arguments, and ` unsigned` and
/// ` NOT NULL` where they stand; a key is its kind, its name and its parts, each the name of its column with
/// `(n)` behind it where a prefix length stands, and then ` DESC` where that does. Names stand between
/// backquotes, doubled inside. Of a statement that `reads_what_is_written` speaks of this is all; other
/// attributes and arguments, FULLTEXT, SPATIAL, USING and options are left out.
///
/// The error is want of memory.
#[tactic(auto, unfolding(crate::specs::Canonical::canonical))]
pub fn write_create(alloc: Global, statement: &CreateTable) -> Result<Bytes, AllocError>
    ensures { IfOk result (λ text. text ≡ canonical statement.now) }
{
    let mut text = Bytes::new(alloc);
    text.append(b"CREATE TABLE ")?;
    write_name(&mut text, statement.table.as_slice())?;
    text.append(b" (\n")?;
    write_definitions(&mut text, statement.definitions.as_slice())?;
    text.append(b"\n)\n")?;
    Ok(text)
}

/// The canonical text of a statement is read as the statement, where its text says all of it.
#[tactic(auto, using(crate::proofs::Law::law))]
pub fn reads_what_is_written()
    ensures { (c : statement) → IsCanonical c → create_form (canonical c) ≡ Some c }
{}
