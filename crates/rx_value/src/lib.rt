//! Values and their order, spans and ranges of keys, the shapes of tables and their limits.
#![tactic(auto)]

mod bytes;
mod copies;
mod entries;
mod keys;
mod limits;
mod list;
mod names;
mod order;
mod precedence;
mod ranges;
mod shapes;
mod spans;
mod values;

pub use bytes::Bytes;
pub use copies::Copied;
pub use entries::compare_keys;
pub use keys::{PartValue, compare_part};
pub use limits::{MOST_COLUMNS, MOST_INDEXES, MOST_PARTS, MOST_ROWS};
pub use list::{
    BoolList, Key, KeyList, KeyLists, List, NameList, NumberList, OrderLists, Row, RowList,
};
pub use names::same_name;
pub use order::{End, Side, Span, compare_ends, is_at_most};
pub use precedence::before;
pub use ranges::{Bound, Group, GroupList, KeyRange, RangeList, Rest, SpanList};
pub use shapes::{ColType, Column, ColumnList, Index, IndexList, Part, PartList, Schema};
pub use spans::{
    earlier, ends_are_ordered, first_end, is_whole_span, later, meet, touches, whole_span,
};
pub use values::{Value, compare};
