use rx_cond::Cond;
use rx_value::{BoolList, List, NumberList};

/// An item of the select list. Columns are numbers from 0 in the order of the schema.
#[derive(Drop)]
pub enum Item {
    /// The value of a column.
    Column(u32),
    /// `COUNT(*)`.
    CountRows,
    /// `COUNT(column)`: how many values aren't NULL.
    Count(u32),
    /// `COUNT(DISTINCT column, ..)`: how many different rows of these columns have no NULL.
    CountDistinct(NumberList),
    /// `SUM(column)`, of an integer column.
    Sum(u32),
    /// `MIN(column)`.
    Min(u32),
    /// `MAX(column)`.
    Max(u32),
}

/// The select list in order.
pub type ItemList = List<Item>;

/// What rows are ordered by.
#[derive(Clone, Copy, Drop)]
pub enum By {
    /// A column, by its number from 0.
    Column(u32),
    /// An item of the select list, by its place from 0.
    Place(u32),
}

/// One level of ORDER BY.
#[derive(Clone, Copy, Drop)]
pub struct Order {
    pub by: By,
    /// Whether the order is DESC.
    pub falling: bool,
}

/// The levels of ORDER BY, the first of them first.
pub type OrderList = List<Order>;

/// A SELECT statement over a schema.
#[derive(Drop)]
pub struct Select {
    /// Whether equal rows are printed once.
    pub distinct: bool,
    pub items: ItemList,
    /// The condition of WHERE, TRUE where there is none.
    pub cond: Cond,
    /// The columns of GROUP BY in order.
    pub group: NumberList,
    pub order: OrderList,
    /// Whether each index of the schema, in order, may be used.
    pub usable: BoolList,
}

/// What one place of a SET statement sets. The flags are those of `optimizer_switch`
/// (MySQL manual, "Switchable Optimizations").
#[derive(Clone, Copy, Drop)]
pub enum Setting {
    /// `index_merge`.
    Merge(bool),
    /// `index_merge_intersection`.
    Intersection(bool),
    /// `index_merge_union`.
    UnionOn(bool),
    /// `index_merge_sort_union`.
    SortUnion(bool),
    /// `skip_scan`.
    Skip(bool),
    /// `eq_range_index_dive_limit`, 0 to 4294967295.
    DiveLimit(u64),
    /// `range_optimizer_max_mem_size` in bytes; 0 is no limit.
    Memory(u64),
    /// `optimizer_trace`: whether statements are traced.
    Trace(bool),
}

/// What a SET statement sets, in the order of the text.
pub type SettingList = List<Setting>;

/// What a statement of a script asks for.
#[derive(Drop)]
pub enum Statement {
    Query(Select),
    Change(SettingList),
}

/// A statement and the number of its segment between semicolons, from 1.
#[derive(Drop)]
pub struct Numbered {
    pub number: u64,
    pub statement: Statement,
}

/// The statements of a script in order.
pub type Script = List<Numbered>;
