//! What the statements of a script ask for: queries, settings and their changes, as plain data.
#![tactic(auto)]

mod plain;
mod settings;
mod statements;

pub use plain::{is_column, is_plain, makes_groups};
pub use settings::{Settings, apply};
pub use statements::{
    By, Item, ItemList, Numbered, Order, OrderList, Script, Select, Setting, SettingList, Statement,
};
