//! What was made of which pair of levels, in the order in which it came.

ghost use Rattle.std.specs.Prelude.{◌≡◌, ◌++◌, ◌∷◌, ℕ, List, [], Option, Some, None, OnOk, OnErr, IfSome, IfNone};
ghost use Rattle.rx_pairs.specs.Pairs.{Made, Among, Lacks};

use indexmap::IndexMap;
use rx_level::{Link, Owned};
use std::alloc::{AllocError, Global};
use std::marker::Model;

/// What was made of which pair of levels, in the order in which it came. A pair is told by the links of both levels.
#[derive(Drop)]
pub struct Memory {
    made: IndexMap<(usize, usize), Owned>,
}

impl Model for Memory {
    ghost use Rattle.std.specs.Prelude.{ℕ, List, Option};
    ghost use Rattle.rx_pairs.specs.Pairs.{Made};

    ghost Value = { List Made };

    ghost view = { λ a. a.made.entries };
}

impl Memory {
    /// Nothing was made yet. Takes no memory.
    pub fn new(alloc: Global) -> Memory
        ensures { result ≡ [] }
    {
        Memory {
            made: IndexMap::new(alloc),
        }
    }

    /// What was made of a pair, where something was.
    pub fn find(&self, first: usize, second: usize) -> Option<Link>
        ensures some { IfSome result (λ made. Among self.now ((first, second), made)) }
        ensures none { IfNone result (Lacks self.now (first, second)) }
    {
        self.made.get(&(first, second)).copied()
    }

    /// Notes what was made of a pair of which nothing was before. The error is want of memory.
    pub fn note(&mut self, first: usize, second: usize, made: Owned) -> Result<(), AllocError>
        requires { Lacks self.old (first, second) }
        ensures ok { OnOk result (self.new ≡ self.old ++ ((first, second), made) ∷ []) }
        ensures err { OnErr result (self.new ≡ self.old) }
    {
        self.made.insert((first, second), made)?;
        Ok(())
    }

    /// Takes out what came last.
    pub fn take_last(&mut self) -> Option<((usize, usize), Owned)>
        ensures some { IfSome result (λ last. self.old ≡ self.new ++ last ∷ []) }
        ensures none { IfNone result (self.old ≡ []) }
    {
        self.made.pop()
    }
}
