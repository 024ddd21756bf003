//! SELECT and SET as they are written, and the segments of a script.
#![tactic(auto)]

mod clauses;
mod hints;
mod items;
mod parsing;
mod selects;
mod sets;
mod statements;

pub use parsing::{one_statement, read_segment, segments, split_at_semicolons};
pub use statements::{
    Aggregate, HintKind, RawBy, RawHint, RawHintList, RawItem, RawItemList, RawItems, RawOrder,
    RawOrderList, RawSelect, RawSetting, RawSettingList, RawStatement, RawValue,
};
