use rx_value::{Bytes, List, NameList};
use rx_where::RawCond;

/// An aggregate of the values of a column.
#[derive(Clone, Copy)]
pub enum Aggregate {
    Count,
    Sum,
    Min,
    Max,
}

/// An item of a select list, with the names of its columns.
#[derive(Drop)]
pub enum RawItem {
    Column(Bytes),
    /// `COUNT(*)`
    CountRows,
    /// `COUNT(DISTINCT ..)`
    CountDistinct(NameList),
    /// COUNT, SUM, MIN or MAX of a column.
    Of { aggregate: Aggregate, column: Bytes },
}

/// What stands between SELECT and FROM.
#[derive(Drop)]
pub enum RawItems {
    /// `*`
    Every,
    Listed(RawItemList),
}

/// What a hint says of the indexes that it names.
#[derive(Clone, Copy)]
pub enum HintKind {
    Use,
    Ignore,
}

/// `USE INDEX` or `IGNORE INDEX`, with the names of indexes.
#[derive(Drop)]
pub struct RawHint {
    pub kind: HintKind,
    pub indexes: NameList,
}

/// What rows are ordered by.
#[derive(Drop)]
pub enum RawBy {
    Column(Bytes),
    /// A place in the select list, from 1, with its digits as written.
    Place { number: u128, digits: Bytes },
}

/// A part of ORDER BY, and whether DESC stands behind it.
#[derive(Drop)]
pub struct RawOrder {
    pub by: RawBy,
    pub falling: bool,
}

/// A SELECT as it is written, with names in place of numbers. Without WHERE the condition is TRUE.
#[derive(Drop)]
pub struct RawSelect {
    pub distinct: bool,
    pub items: RawItems,
    pub table: Bytes,
    pub hints: RawHintList,
    pub cond: RawCond,
    /// The columns of GROUP BY, none without it.
    pub group: NameList,
    /// The parts of ORDER BY, none without it.
    pub order: RawOrderList,
}

/// What a setting is set to.
#[derive(Drop)]
pub enum RawValue {
    Number { negative: bool, number: u128 },
    /// A text between quotes, decoded.
    Text(Bytes),
    Default,
}

/// A setting as a SET statement names it, and its value.
#[derive(Drop)]
pub struct RawSetting {
    pub name: Bytes,
    pub value: RawValue,
}

/// A statement of a script as it is written.
#[derive(Drop)]
pub enum RawStatement {
    Query(RawSelect),
    Change(RawSettingList),
}

/// The items of a select list in order.
pub type RawItemList = List<RawItem>;
/// Hints in order.
pub type RawHintList = List<RawHint>;
/// The parts of ORDER BY in order.
pub type RawOrderList = List<RawOrder>;
/// The settings of a SET statement in order.
pub type RawSettingList = List<RawSetting>;
