ghost use Rattle.std.specs.Prelude.{◌≡◌, ◌==◌};
ghost use Rattle.std.specs.List.{list_all};
ghost use Rattle.rx_query.specs.Grouping.{makes_groups};
ghost use Rattle.rx_query.specs.Steps.{is_column, is_plain, question_of};

use crate::statements::{Item, Select};

/// Whether an item is the value of a column.
pub fn is_column(item: &Item) -> bool
    ensures { result ≡ is_column item.now }
{
    matches!(item, Item::Column(_))
}

fn are_columns(items: &[Item]) -> bool
    ensures { result ≡ list_all is_column items.now }
{
    items.iter().all(|item| is_column(item))
}

/// Whether there is GROUP BY or an aggregate.
pub fn makes_groups(items: &[Item], group: &[u32]) -> bool
    ensures { result ≡ makes_groups items.now group.now }
{
    group.len() > 0 || !are_columns(items)
}

fn is_none(count: usize) -> bool
    ensures { result ≡ (count == 0) }
{
    count == 0
}

/// Whether the rows of a query are printed as they are found: there is no DISTINCT, no GROUP BY, no ORDER BY and no
/// aggregate.
pub fn is_plain(query: &Select) -> bool
    ensures { result ≡ is_plain (question_of query.now) }
{
    !query.distinct
        && are_columns(query.items.as_slice())
        && is_none(query.group.len())
        && is_none(query.order.len())
}
