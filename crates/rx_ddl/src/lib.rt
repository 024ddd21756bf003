//! CREATE TABLE statements as they are written.
#![tactic(auto)]

mod attributes;
mod columns;
mod faults;
mod keys;
mod options;
mod reading;
mod statements;
mod writing;

pub use faults::CreateFault;
pub use reading::{one_statement, read_create};
pub use statements::{
    Argument, ArgumentList, Attribute, AttributeList, ColumnDefinition, CreateDefinition,
    CreateTable, DefinitionList, KeyDefinition, KeyKind, KeyPart, KeyPartList, Method, MethodList,
    OptionList, TableOption,
};
pub use writing::{reads_what_is_written, write_create};
