ghost use Rattle.std.specs.Prelude.{◌≡◌, option_copied, unwrap_or, OnOk, IsPermutation};
ghost use Rattle.std.specs.List.Sorted.{IsSortedBy, IsStableBy};
ghost use Rattle.rx_value.specs.declared.values.Value.TheVariants.{Null};
ghost use Rattle.rx_order.specs.Order.{value_by, outputs_cmp_by, outputs_cmp, is_before, in_order};

use crate::outputs::Output;
use rx_group::compare_found;
use rx_query::{By, Order};
use rx_value::Value;
use std::alloc::AllocError;
use std::cmp::Ordering;

// What an output row is ordered by, None where it isn't there.
fn value_by<'a>(by: By, output: &'a Output<'_>) -> Option<&'a Value>
    ensures { unwrap_or (option_copied result) Null ≡ value_by by output.now }
{
    match by {
        By::Column(column) => output.source.get(column as usize),
        By::Place(place) => output.values.as_slice().get(place as usize),
    }
}

// Output rows by one part of ORDER BY.
fn compare_part(part: Order, a: &Output<'_>, b: &Output<'_>) -> Ordering
    ensures { result ≡ outputs_cmp_by part a.now b.now }
{
    let (left, right) = (value_by(part.by, a), value_by(part.by, b));
    if part.falling {
        compare_found(right, left)
    } else {
        compare_found(left, right)
    }
}

// Output rows by the parts of ORDER BY in turn.
fn compare_outputs(order: &[Order], a: &Output<'_>, b: &Output<'_>) -> Ordering
    ensures { result ≡ outputs_cmp order.now a.now b.now }
{
    for part in order {
        let by_part = compare_part(*part, a, b);
        if by_part != Ordering::Equal {
            return by_part;
        }
    }
    Ordering::Equal
}

/// Puts output rows into the order of ORDER BY (MySQL manual, "SELECT Statement"): by its parts in turn, NULL first and
/// with DESC last, and those that tie as they stood. Takes time in proportion to n log n.
/// The error is want of memory, and leaves the rows as they stood.
pub fn sort(outputs: &mut Vec<Output<'_>>, order: &[Order]) -> Result<(), AllocError>
    ensures exact { OnOk result (outputs.new.items ≡ in_order order.now outputs.old.items) }
    ensures same { IsPermutation outputs.old.items outputs.new.items }
    ensures sorted { OnOk result (IsSortedBy (is_before order.now) outputs.new.items) }
    ensures stable { IsStableBy (is_before order.now) outputs.old.items outputs.new.items }
{
    outputs.sort_by(|a, b| compare_outputs(order, a, b))
}
