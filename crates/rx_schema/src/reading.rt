ghost use Rattle.std.specs.Prelude.{IfOk};
ghost use Rattle.rx_schema.specs.Outcomes.{Answers};
ghost use Rattle.rx_schema.specs.Schema.{read_of};
ghost use Rattle.rx_schema.specs.Tables.{IsDeclarable};

use crate::declaring::schema_of;
use crate::faults::SchemaFault;
use rx_ddl::{CreateFault, read_create};
use rx_value::Schema;
use std::alloc::Global;

#[tactic(auto, unfolding(crate::specs::Schema::read_of))]
fn read_statement(alloc: Global, text: &[u8]) -> Result<Schema, SchemaFault>
    ensures { Answers (read_of text.now) result }
{
    match read_create(alloc, text) {
        Ok(create) => schema_of(alloc, &create),
        Err(CreateFault::NotInGrammar) => Err(SchemaFault::NotInGrammar),
        Err(CreateFault::NoMemory) => Err(SchemaFault::NoMemory),
    }
}

/// The schema that a CREATE TABLE statement declares, in the text that SHOW CREATE TABLE writes.
///
/// Columns have an integer type of 8, 16, 24, 32 or 64 bits, signed or not, or `varchar` of at most 255
/// characters with the collation `utf8mb4_0900_bin`, its own or else the table's; where none is named it is that.
/// The last of several attributes or options of one kind counts, and NULL and NOT NULL are of one kind. A width of
/// an integer type, defaults, comments and the other options of the table are passed over. A column of the primary
/// key can't be NULL. The primary key has number 0 and the name `PRIMARY`, and the other keys follow in the order of
/// the text. A part of a key falls where DESC stands. On a `varchar` column it may have a prefix length from 1 to the
/// characters of the column, and as many as these are read as none. Names are compared without ASCII case and keep
/// the spelling of the text.
///
/// [MySQL 8.0, "CREATE TABLE Statement"](https://dev.mysql.com/doc/refman/8.0/en/create-table.html), and
/// ["CREATE INDEX Statement"](https://dev.mysql.com/doc/refman/8.0/en/create-index.html) on prefix lengths and DESC
///
/// # Errors
///
/// Each is tested where the ones before don't come:
///
/// - `NotInGrammar`: the text is no CREATE TABLE statement with a column.
/// - `NotInProfile`: something is outside the types, attributes and keys above; it names the first such place in the
///   order of the text. All that a column has stands at its name, and there the order is that of `Which`.
/// - `TooMany`: more than 256 columns, then more than 64 keys besides the primary one, then more than 16 parts.
/// - `Duplicate`: a name stands twice among the columns, else among the indexes, else within one key. It names the
///   first that an earlier one equals. A second primary key, and any other key that is named so, is `PRIMARY`.
/// - `UnknownColumn`: the first column of a key that is no column of the table.
/// - `NoMemory`: there was no memory for the schema.
#[tactic(auto, using(crate::proofs::Giving::answer_given))]
pub fn read_schema(alloc: Global, text: &[u8]) -> Result<Schema, SchemaFault>
    ensures exact { Answers (read_of text.now) result }
    ensures declarable { IfOk result IsDeclarable }
{
    read_statement(alloc, text)
}
