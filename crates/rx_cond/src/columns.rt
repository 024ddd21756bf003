ghost use Rattle.std.specs.Prelude.{◌≡◌, nat_eq, map};
ghost use Rattle.std.specs.List.{list_any};
ghost use Rattle.rx_cond.specs.Tree.{tree_of, trees};
ghost use Rattle.rx_cond.specs.Columns.{columns_of, columns_of_all, operand_columns};

use crate::conds::{Cond, Operand};

/// Whether the condition names the column with this number. Takes no memory.
#[cycle(mentions)]
pub fn mentions(cond: &Cond, column: u32) -> bool
    ensures { result ≡ list_any (nat_eq column) (columns_of (tree_of cond.now)) }
{
    match cond {
        Cond::Truth(_) => false,
        Cond::Compare { op: _, left, right } => is_column(left, column) || is_column(right, column),
        Cond::Member { left, list: _ } => is_column(left, column),
        Cond::RowMember { columns, list: _ } => columns.as_slice().contains(&column),
        Cond::IsNull(operand) => is_column(operand, column),
        Cond::Like {
            column: own,
            pattern: _,
        } => *own == column,
        Cond::Neg(inner) => mentions(inner, column),
        Cond::Conj(items) => any_mentions(items, column),
        Cond::Disj(items) => any_mentions(items, column),
    }
}

#[cycle(mentions)]
fn any_mentions(items: &[Cond], column: u32) -> bool
    ensures { result ≡ list_any (nat_eq column) (columns_of_all (trees (map tree_of items.now))) }
{
    for item in items {
        if mentions(item, column) {
            return true;
        }
    }
    false
}

fn is_column(operand: &Operand, column: u32) -> bool
    ensures { result ≡ list_any (nat_eq column) (operand_columns operand.now) }
{
    match operand {
        Operand::Column(own) => *own == column,
        Operand::Constant(_) => false,
    }
}
