ghost use Rattle.std.specs.Prelude.{◌≡◌, ◌==◌};
ghost use Rattle.std.specs.List.{list_all};
ghost use Rattle.rx_query.specs.Steps.{question_of, is_column, is_plain};

use rx_query::{Item, Select};

fn is_column(item: &Item) -> bool
    ensures { result ≡ is_column item.now }
{
    matches!(item, Item::Column(_))
}

fn are_columns(items: &[Item]) -> bool
    ensures { result ≡ list_all is_column items.now }
{
    items.iter().all(|item| is_column(item))
}

fn is_none(count: usize) -> bool
    ensures { result ≡ (count == 0) }
{
    count == 0
}

/// Whether the rows of a query are printed as they are found.
pub(crate) fn is_plain(query: &Select) -> bool
    ensures { result ≡ is_plain (question_of query.now) }
{
    !query.distinct
        && are_columns(query.items.as_slice())
        && is_none(query.group.len())
        && is_none(query.order.len())
}
