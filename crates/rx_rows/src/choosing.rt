ghost use Rattle.std.specs.Prelude.{◌≡◌};
ghost use Rattle.rx_cond.specs.Tree.{tree_of, truth_at};
ghost use Rattle.rx_cond.specs.Tri.{is_true};
ghost use Rattle.rx_rows.specs.Answer.{projected};

use rx_cond::{Cond, Tri, truth};
use rx_query::Item;
use rx_value::Row;
use std::marker::Model;

/// The select list at a row, whose values stay where they are. Seen by contracts as these values.
#[derive(Drop)]
pub struct Projected<'a> {
    pub(crate) items: &'a [Item],
    pub(crate) row: &'a Row,
}

impl<'a> Model for Projected<'a> {
    ghost use Rattle.std.specs.Prelude.{List};
    ghost use Rattle.rx_value.specs.declared.values.Value.{Value as value};
    ghost use Rattle.rx_rows.specs.Answer.{projected};

    ghost Value = { List value };

    ghost view = { λ p. projected p.items.now p.row.now };
}

/// Whether a condition is true at a row, and neither false nor unknown. Takes no memory.
pub fn is_selected(cond: &Cond, row: &Row) -> bool
    ensures { result ≡ is_true (truth_at (tree_of cond.now) row.now) }
{
    truth(cond, row) == Tri::T
}

/// What the items of a select list are at a row, in their order: the value of a column, NULL for one that isn't there and
/// for what is no column. Takes no memory.
pub fn project<'a>(items: &'a [Item], row: &'a Row) -> Projected<'a>
    ensures { result ≡ projected items.now row.now }
{
    Projected { items, row }
}
