//! Sets of tuples over a small grid, as plain lists of yes and no.

ghost use Rattle.std.specs.Prelude.{◌<◌, ◌≤◌};

use rx_value::{End, Side, Span, Value};
use std::alloc::{AllocError, Global};

/// How many cells a part has: NULL, below 1, 1, between 1 and 2, 2, above 2.
pub const CELLS: usize = 6;

/// The end before a cell, that of the number of cells behind them all.
pub fn end_at(cell: usize) -> End {
    let (at, side) = match cell {
        0 => (Value::Null, Side::Below),
        1 => (Value::Null, Side::Above),
        2 => (Value::Int(1), Side::Below),
        3 => (Value::Int(1), Side::Above),
        4 => (Value::Int(2), Side::Below),
        5 => (Value::Int(2), Side::Above),
        _ => return End::Last,
    };
    End::Cut { at, side }
}

/// The span of the cells from one on and before another.
pub fn cells_span(from: usize, to: usize) -> Span {
    Span {
        lo: end_at(from),
        hi: end_at(to),
    }
}

/// The first cell of a part.
pub fn first_cell(nullable: bool) -> usize
    ensures { result ≤ 1 }
{
    if nullable { 0 } else { 1 }
}

/// Whether the bits of a number choose a cell.
pub fn is_chosen(cells: u64, cell: usize) -> bool {
    (cells >> (cell as u64 % 64)) & 1 == 1
}

/// The cell of a part in the tuple with a number, where the later parts have so many tuples.
pub fn cell_of(tuple: usize, later: usize) -> usize
    requires { 0 < later }
{
    tuple / later % CELLS
}

/// Whether the tuple with a number is one of these parts: it has NULL where a part may be NULL alone.
pub fn is_tuple(parts: &[bool], tuple: usize, later: usize) -> bool {
    let [nullable, rest @ ..] = parts else {
        return true;
    };
    if later == 0 {
        return false;
    }
    first_cell(*nullable) <= cell_of(tuple, later) && is_tuple(rest, tuple, later / CELLS)
}

/// The number of tuples of so many parts.
pub fn tuple_count(parts: &[bool]) -> usize {
    let [_, rest @ ..] = parts else {
        return 1;
    };
    tuple_count(rest).saturating_mul(CELLS)
}

/// The tuples whose cell of a part is one of those chosen by the bits of a number.
pub fn chosen(
    alloc: Global,
    parts: &[bool],
    part: usize,
    cells: u64,
) -> Result<Vec<bool>, AllocError> {
    let most = tuple_count(parts);
    let later = tuple_count(parts.get(part..).unwrap_or(&[])) / CELLS;
    let mut set = Vec::new(alloc);
    for tuple in 0..most {
        let held = later != 0
            && is_tuple(parts, tuple, most / CELLS)
            && is_chosen(cells, cell_of(tuple, later));
        set.push(held)?;
    }
    Ok(set)
}

/// The tuples of both sets, or of either.
pub fn combined(
    alloc: Global,
    both: bool,
    g: &[bool],
    h: &[bool],
) -> Result<Vec<bool>, AllocError> {
    let mut set = Vec::new(alloc);
    for (a, b) in g.iter().zip(h.iter()) {
        set.push(if both { *a && *b } else { *a || *b })?;
    }
    Ok(set)
}

/// Whether a set over these parts has all tuples.
pub fn is_full(parts: &[bool], set: &[bool]) -> bool {
    for (tuple, held) in set.iter().enumerate() {
        if !*held && is_tuple(parts, tuple, set.len() / CELLS) {
            return false;
        }
    }
    true
}

/// The items of the tree of a set over these parts: one for each run of cells with the same tuples behind them, unless
/// these are all or none.
pub fn items_of(parts: &[bool], set: &[bool]) -> u64 {
    let [nullable, rest @ ..] = parts else {
        return 0;
    };
    let later = set.len() / CELLS;
    if later == 0 || is_full(parts, set) {
        return 0;
    }
    let mut items = 0u64;
    let mut before: &[bool] = &[];
    for behind in set.chunks(later).skip(first_cell(*nullable)) {
        if behind != before && behind.contains(&true) {
            items = items
                .saturating_add(1)
                .saturating_add(items_of(rest, behind));
        }
        before = behind;
    }
    items
}
