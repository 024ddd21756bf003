ghost use Rattle.std.specs.Prelude.{◌≡◌, length, IfOk};
ghost use Rattle.rx_order.specs.Order.{distinct, chosen};

use crate::outputs::Output;
use rx_group::{Tuple, number_of};
use std::alloc::{AllocError, Global};
use std::collections::BTreeMap;

// Of each output row whether no earlier one is equal to it.
fn fresh(alloc: Global, outputs: &[Output<'_>]) -> Result<Vec<bool>, AllocError>
    ensures length { IfOk result (λ flags. length flags.items ≡ length outputs.now) }
    ensures firsts { IfOk result (λ flags. chosen outputs.now flags.items ≡ distinct outputs.now) }
{
    let mut numbers = BTreeMap::new(alloc);
    let mut flags = Vec::new(alloc);
    let mut count = 0;
    for output in outputs {
        let number = number_of(&mut numbers, Tuple::whole(&output.values), count)?;
        let is_new = number == count;
        flags.push(is_new)?;
        if is_new {
            count += 1;
        }
    }
    Ok(flags)
}

/// The first of equal output rows, in their order. Takes time in proportion to n log n. The error is want of memory.
pub fn distinct_outputs<'a>(
    alloc: Global,
    outputs: Vec<Output<'a>>,
) -> Result<Vec<Output<'a>>, AllocError>
    ensures { IfOk result (λ kept. kept.items ≡ distinct outputs.entry.items) }
{
    let flags = fresh(alloc, outputs.as_slice())?;
    let mut kept = Vec::new(alloc);
    for (output, is_new) in outputs.into_iter().zip(flags) {
        if is_new {
            kept.push(output)?;
        }
    }
    Ok(kept)
}
