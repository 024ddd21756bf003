ghost use Rattle.std.specs.Prelude.{◌≡◌, ◌<◌, ◌↔◌};

use rx_graph::GraphFault;
use std::fmt;

/// Why a graph isn't made.
#[derive(Clone, Copy, Debug, PartialEq, Eq, Drop)]
pub enum Fault {
    /// The arena doesn't take the span of a point.
    NotAccepted,
    /// One step over a graph of so many items made more new ones than are allowed.
    TooMany { made: u64, items: u64 },
    /// The graph has more items than the limit.
    OverLimit,
    /// Memory is wanting.
    NoMemory,
    /// A line can't be printed.
    NotPrinted,
}

impl Fault {
    /// The fault of a call on an arena.
    pub fn of(fault: GraphFault) -> Fault
        ensures over { result ≡ Fault.OverLimit ↔ (fault ≡ GraphFault.OverLimit) }
        ensures memory { result ≡ Fault.NoMemory ↔ (fault ≡ GraphFault.NoMemory) }
    {
        match fault {
            GraphFault::OverLimit => Fault::OverLimit,
            GraphFault::NoMemory => Fault::NoMemory,
        }
    }

    /// The exit status that tells of it: 3 for want of memory, and 1 for all else.
    pub fn status(&self) -> u8
        ensures memory { result ≡ 3 ↔ (self.now ≡ Fault.NoMemory) }
        ensures failed { 0 < result }
    {
        match self {
            Fault::NoMemory => 3,
            _ => 1,
        }
    }
}

impl fmt::Display for Fault {
    fn fmt<W: fmt::Write>(&self, f: &mut fmt::Formatter<W>) -> fmt::Result {
        match self {
            Fault::NotAccepted => f.write_str("a point isn't accepted"),
            Fault::TooMany { made, items } => {
                write!(
                    f,
                    "one step over {items} items made {made} new ones, which is not allowed"
                )
            }
            Fault::OverLimit => f.write_str("the graph has more items than the limit"),
            Fault::NoMemory => f.write_str("out of memory"),
            Fault::NotPrinted => f.write_str("a line can't be printed"),
        }
    }
}
