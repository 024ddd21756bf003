//! The parts that an arena is over.

ghost use Rattle.std.specs.Prelude.{◌≡◌, Bool, List, IfOk};
ghost use Rattle.rx_graph.specs.Graph.{IsPartList};

use rx_value::BoolList;
use std::alloc::{AllocError, Global};
use std::marker::Model;

/// The parts of an index, at least one and at most 16, each with whether it may be NULL.
#[derive(Drop)]
pub struct Parts {
    nullable: BoolList,
}

impl Model for Parts {
    ghost use Rattle.std.specs.Prelude.{List, Bool};
    ghost use Rattle.rx_graph.specs.Graph.{IsPartList};

    ghost Value = { List Bool };

    ghost view = { λ p. p.nullable };

    ghost invariant = { λ p. IsPartList p.nullable };
}

impl Parts {
    /// The parts of a list. The error is want of memory.
    pub fn new(alloc: Global, nullable: &[bool]) -> Result<Parts, AllocError>
        requires { IsPartList nullable.now }
        ensures { IfOk result (λ parts. parts ≡ nullable.now) }
    {
        let nullable = BoolList::from_vec(Vec::from_slice(alloc, nullable)?);
        Ok(Parts { nullable })
    }

    /// The parts, to be read.
    pub fn as_slice(&self) -> &[bool]
        ensures items { result.now ≡ self.now }
        ensures number { IsPartList self.now }
    {
        self.nullable.as_slice()
    }
}
