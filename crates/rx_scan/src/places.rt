ghost use Rattle.std.specs.Prelude.{◌≡◌, ◌<◌, [], ◌∷◌, ◌++◌, drop, IfSome, IfNone};
ghost use Rattle.std.specs.List.{flat_map, range_with_len};
ghost use Rattle.rx_scan.specs.Runs.{extent_places};

use rx_value::List;
use std::alloc::Global;
use std::marker::Model;

/// The places from one on, before another.
#[derive(Clone, Copy, Drop)]
pub(crate) struct Extent {
    pub begin: u64,
    pub end: u64,
}

/// Places that are left, in order: those from one on, before another, and then those of extents from one of them on.
#[derive(Drop)]
pub struct Places {
    at: u64,
    end: u64,
    extents: List<Extent>,
    next: usize,
}

impl Model for Places {
    ghost use Rattle.std.specs.Prelude.{ℕ, List as list, ◌++◌, drop};
    ghost use Rattle.std.specs.List.{flat_map};
    ghost use Rattle.rx_scan.specs.Runs.{places_between, extent_places};

    ghost Value = { list ℕ };

    ghost view = { λ p. places_between p.at p.end ++ flat_map extent_places (drop p.next p.extents) };
}

// The first of these extents, from a place on, that has a place, and the place behind it.
fn next_extent(extents: &[Extent], from: usize) -> Option<(Extent, usize)>
    ensures some { IfSome result (λ found. flat_map extent_places (drop from extents.now) ≡ extent_places found.0 ++ flat_map extent_places (drop found.1 extents.now)) }
    ensures filled { IfSome result (λ found. found.0.begin < found.0.end) }
    ensures none { IfNone result (flat_map extent_places (drop from extents.now) ≡ []) }
{
    for place in from..extents.len() {
        let extent = extents[place];
        if extent.begin < extent.end {
            return Some((extent, place + 1));
        }
    }
    None
}

impl Places {
    /// The places before one. Takes no memory.
    pub(crate) fn before(alloc: Global, end: u64) -> Places
        ensures { result ≡ range_with_len 0 end }
    {
        Places {
            at: 0,
            end,
            extents: List::new(alloc),
            next: 0,
        }
    }

    /// The places of extents in order. Takes no memory.
    pub(crate) fn of(extents: List<Extent>) -> Places
        ensures { result ≡ flat_map extent_places extents }
    {
        Places {
            at: 0,
            end: 0,
            extents,
            next: 0,
        }
    }

    /// Takes out the first place.
    pub fn next(&mut self) -> Option<u64>
        ensures some { IfSome result (λ place. self.old ≡ place ∷ self.new) }
        ensures none { IfNone result (self.old ≡ []) }
        ensures empty { IfNone result (self.new ≡ []) }
    {
        if self.at >= self.end {
            let (extent, next) = next_extent(self.extents.as_slice(), self.next)?;
            self.at = extent.begin;
            self.end = extent.end;
            self.next = next;
        }
        let place = self.at;
        self.at += 1;
        Some(place)
    }
}
