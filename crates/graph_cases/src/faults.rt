//! Why a case has no values.

ghost use Rattle.std.specs.Prelude.{◌≡◌, ◌↔◌};

use rx_graph::GraphFault;

/// Why a case has no values.
#[derive(Clone, Copy, Drop)]
pub enum Fault {
    /// The line is no case.
    Unreadable,
    /// The arena doesn't take the spans.
    Refused,
    /// The graph has more items than the limit.
    OverLimit,
    /// A graph isn't like its plain set.
    Differs,
    /// Handles or items are left when all was given back.
    Left,
    /// Memory is wanting.
    NoMemory,
}

impl Fault {
    /// The fault of a call on an arena.
    pub fn of(fault: GraphFault) -> Fault {
        match fault {
            GraphFault::OverLimit => Fault::OverLimit,
            GraphFault::NoMemory => Fault::NoMemory,
        }
    }

    /// What is printed in place of the values, none where the program stops.
    pub fn word(self) -> Option<&'static str> {
        match self {
            Fault::Unreadable => Some("unreadable"),
            Fault::Refused => Some("refused"),
            Fault::OverLimit => Some("over the limit"),
            Fault::Differs => Some("differs from its set"),
            Fault::Left => Some("items are left"),
            Fault::NoMemory => None,
        }
    }
}
