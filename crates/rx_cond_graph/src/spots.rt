//! The part of an index on which a column stands.

ghost use Rattle.std.specs.Prelude.{◌≡◌, ◌<◌, ◌≤◌, length, IfSome};
ghost use Rattle.rx_value.specs.Limits.{most_parts};
ghost use Rattle.rx_cond_graph.specs.Giving.{spot_in};

use rx_value::Part;

/// The part on which a column stands: its place among the parts, whether it may be NULL, and its prefix length.
#[derive(Clone, Copy)]
pub(crate) struct Spot {
    pub(crate) place: u32,
    pub(crate) nullable: bool,
    pub(crate) chars: Option<u32>,
}

/// The first part that is this column. None where no part is.
pub(crate) fn spot_of(nullable: &[bool], parts: &[Part], column: u32) -> Option<Spot>
    requires { length nullable.now ≤ most_parts }
    ensures spot { result ≡ spot_in nullable.now parts.now column }
    ensures place { IfSome result (λ s. s.place < length nullable.now) }
{
    let [first, rest @ ..] = nullable else {
        return None;
    };
    let [part, others @ ..] = parts else {
        return None;
    };
    if part.column == column {
        return Some(Spot {
            place: 0,
            nullable: *first,
            chars: part.chars,
        });
    }
    let spot = spot_of(rest, others, column)?;
    Some(Spot {
        place: spot.place + 1,
        nullable: spot.nullable,
        chars: spot.chars,
    })
}
