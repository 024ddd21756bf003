ghost use Rattle.std.specs.Prelude.{◌≡◌, map};
ghost use Rattle.rx_cond.specs.Tree.{tree_of, trees, truth_at, truths_at};
ghost use Rattle.rx_cond.specs.Tri.{all_of, any_of};

use crate::conds::{Cond, Tri};
use crate::logic::{both, either, negated, tri};
use crate::single::{comparison, likeness, membership, operand_value, row_membership};
use rx_value::Row;

/// What a condition is at a row. A column that the row lacks counts as NULL. Takes no memory.
#[cycle(truths)]
pub fn truth(cond: &Cond, row: &Row) -> Tri
    ensures { result ≡ truth_at (tree_of cond.now) row.now }
{
    match cond {
        Cond::Truth(tri) => *tri,
        Cond::Compare { op, left, right } => comparison(*op, left, right, row),
        Cond::Member { left, list } => membership(left, list.as_slice(), row),
        Cond::RowMember { columns, list } => row_membership(
            columns.as_slice(),
            list.as_slice(),
            row,
        ),
        Cond::IsNull(operand) => tri(operand_value(operand, row).is_none()),
        Cond::Like { column, pattern } => likeness(*column, pattern.as_slice(), row),
        Cond::Neg(inner) => negated(truth(inner, row)),
        Cond::Conj(items) => truth_of_all(items, row),
        Cond::Disj(items) => truth_of_any(items, row),
    }
}

#[cycle(truths)]
fn truth_of_all(items: &[Cond], row: &Row) -> Tri
    ensures { result ≡ all_of (truths_at (trees (map tree_of items.now)) row.now) }
{
    let mut all = Tri::T;
    for item in items {
        all = both(all, truth(item, row));
        if all == Tri::F {
            break;
        }
    }
    all
}

#[cycle(truths)]
fn truth_of_any(items: &[Cond], row: &Row) -> Tri
    ensures { result ≡ any_of (truths_at (trees (map tree_of items.now)) row.now) }
{
    let mut any = Tri::F;
    for item in items {
        any = either(any, truth(item, row));
        if any == Tri::T {
            break;
        }
    }
    any
}
