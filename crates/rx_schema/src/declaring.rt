ghost use Rattle.std.specs.Prelude.{◌≡◌, ◌≤◌, None, Err, length, IfOk};
ghost use Rattle.rx_value.specs.Limits.{most_columns};
ghost use Rattle.rx_schema.specs.Limits.{too_many};
ghost use Rattle.rx_schema.specs.Names.{column_names};
ghost use Rattle.rx_schema.specs.Outcomes.{Answers};
ghost use Rattle.rx_schema.specs.Schema.{declared, name_refusal, unless_refused, schema_of};

use crate::columns::declared_columns;
use crate::faults::SchemaFault;
use crate::indexes::declared_indexes;
use crate::limits::too_many;
use crate::names::{column_names, first_duplicate, first_unknown, index_names};
use crate::profile::first_misfit;
use rx_ddl::CreateTable;
use rx_value::{Bytes, Schema};
use std::alloc::{AllocError, Global};

fn duplicate(alloc: Global, name: &[u8]) -> SchemaFault
    ensures { Answers (Err (SchemaFault.Duplicate name.now)) (Err result) }
{
    match Bytes::of(alloc, name) {
        Ok(name) => SchemaFault::Duplicate { name },
        Err(_) => SchemaFault::NoMemory,
    }
}

fn unknown_column(alloc: Global, name: &[u8]) -> SchemaFault
    ensures { Answers (Err (SchemaFault.UnknownColumn name.now)) (Err result) }
{
    match Bytes::of(alloc, name) {
        Ok(name) => SchemaFault::UnknownColumn { name },
        Err(_) => SchemaFault::NoMemory,
    }
}

/// The table, its columns and its indexes, by the names of the columns.
#[tactic(auto, using(crate::proofs::Prefixes::columns_named), unfolding(crate::specs::Schema::declared))]
fn declared(alloc: Global, names: &[Bytes], create: &CreateTable) -> Result<Schema, AllocError>
    requires few { length names.now ≤ most_columns }
    requires columns { names.now ≡ column_names create.now.definitions }
    ensures { IfOk result (λ schema. schema ≡ declared create.now) }
{
    let items = create.definitions.as_slice();
    let columns = declared_columns(alloc, items)?;
    let indexes = declared_indexes(alloc, names, columns.as_slice(), items)?;
    Ok(Schema {
        table: Bytes::of(alloc, create.table.as_slice())?,
        columns,
        indexes,
    })
}

/// The schema of a statement within the limits, or the first name that refuses it.
#[tactic(auto, using(crate::proofs::Within::few_names), unfolding(crate::specs::Schema::name_refusal))]
fn named_schema(alloc: Global, create: &CreateTable) -> Result<Schema, SchemaFault>
    requires { too_many create.now.definitions ≡ None }
    ensures { Answers (unless_refused (name_refusal create.now.definitions) (declared create.now)) result }
{
    let items = create.definitions.as_slice();
    let Ok(columns) = column_names(alloc, items) else {
        return Err(SchemaFault::NoMemory);
    };
    let Ok(indexes) = index_names(alloc, items) else {
        return Err(SchemaFault::NoMemory);
    };
    if let Some(name) = first_duplicate(columns.as_slice(), indexes.as_slice(), items) {
        return Err(duplicate(alloc, name));
    }
    if let Some(name) = first_unknown(columns.as_slice(), items) {
        return Err(unknown_column(alloc, name));
    }
    match declared(alloc, columns.as_slice(), create) {
        Ok(schema) => Ok(schema),
        Err(_) => Err(SchemaFault::NoMemory),
    }
}

/// The schema that a statement declares, or the first refusal.
#[tactic(auto, unfolding(crate::specs::Schema::refusal, crate::specs::Schema::schema_of))]
pub(crate) fn schema_of(alloc: Global, create: &CreateTable) -> Result<Schema, SchemaFault>
    ensures { Answers (schema_of create.now) result }
{
    match first_misfit(alloc, create) {
        Ok(Some(which)) => return Err(SchemaFault::NotInProfile { which }),
        Ok(None) => {}
        Err(_) => return Err(SchemaFault::NoMemory),
    }
    if let Some(which) = too_many(create.definitions.as_slice()) {
        return Err(SchemaFault::TooMany { which });
    }
    named_schema(alloc, create)
}
