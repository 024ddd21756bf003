ghost use Rattle.std.specs.Prelude.{◌≡◌, [], ◌∷◌, ◌++◌, map, IfOk, OnOk};
ghost use Rattle.rx_group.specs.Classes.{values_at, classes, rows_of, lists_of};
ghost use Rattle.rx_group.specs.Numbers.{Notes, added};

use crate::tuples::Tuple;
use rx_value::{List, Row};
use std::alloc::{AllocError, Global};
use std::collections::BTreeMap;

/// The number of a list of values among those that came before, and the next number where it is new, which is then noted.
/// The error is want of memory.
pub fn number_of<'a>(
    numbers: &mut BTreeMap<Tuple<'a>, usize>,
    tuple: Tuple<'a>,
    next: usize,
) -> Result<usize, AllocError>
    ensures { IfOk result (λ number. Notes numbers.old numbers.new tuple.entry next number) }
{
    match numbers.get(&tuple).copied() {
        Some(number) => Ok(number),
        None => {
            numbers.insert(tuple, next)?;
            Ok(next)
        }
    }
}

/// Puts a row at the end of the class at a place, or behind all classes as one of its own.
fn add<'a>(
    alloc: Global,
    classes: &mut Vec<List<&'a Row>>,
    place: usize,
    row: &'a Row,
) -> Result<(), AllocError>
    ensures { OnOk result (lists_of classes.new.items ≡ added (lists_of classes.old.items) place row.now) }
{
    if let Some(class) = classes.get_mut(place) {
        class.push(row)?;
        return Ok(());
    }
    let mut class = List::new(alloc);
    class.push(row)?;
    classes.push(class)?;
    Ok(())
}

/// The classes of rows with equal values at some columns, NULL equal to NULL, in the order of their first rows; the rows
/// of a class stand in their order. Takes time in proportion to n log n. The error is want of memory.
pub fn classes<'a>(
    alloc: Global,
    rows: &[&'a Row],
    columns: &'a [u32],
) -> Result<Vec<List<&'a Row>>, AllocError>
    ensures { IfOk result (λ made. lists_of made.items ≡ classes (values_at columns.now) (rows_of rows.now)) }
{
    let mut numbers = BTreeMap::new(alloc);
    let mut made = Vec::new(alloc);
    for row in rows {
        let place = number_of(&mut numbers, Tuple::at(*row, columns), made.len())?;
        add(alloc, &mut made, place, *row)?;
    }
    Ok(made)
}
