//! What was made at which place of a graph.

ghost use Rattle.std.specs.Prelude.{◌≡◌, ◌++◌, ◌∷◌, ◌+◌, ℕ, List, [], Option, Some, None, OnOk, OnErr, IfSome, IfNone};
ghost use Rattle.rx_graft.specs.Made.{Made, Among, AreDifferent, Lacks, HasLast};

use indexmap::IndexMap;
use rx_level::{Link, Owned};
use std::alloc::{AllocError, Global};
use std::marker::Model;

/// What was made at which place, in the order in which it came. A place is a node by its number, and how
/// many levels stand above it. It takes memory for what it holds alone.
#[derive(Drop)]
pub struct Memory {
    made: IndexMap<(usize, usize), Owned>,
}

impl Model for Memory {
    ghost use Rattle.std.specs.Prelude.{ℕ, List, Option};
    ghost use Rattle.rx_graft.specs.Made.{Made, AreDifferent};

    ghost Value = { List Made };

    ghost view = { λ a. a.made.entries };

    ghost invariant = { λ a. AreDifferent a.made.entries };
}

impl Memory {
    /// Nothing was made yet. Takes no memory.
    pub fn new(alloc: Global) -> Memory
        ensures { result ≡ [] }
    {
        Memory {
            made: IndexMap::new(alloc),
        }
    }

    /// That no place is remembered twice, on which a caller may build.
    pub fn different(&self)
        ensures { AreDifferent self.now }
    {
        let _made = &self.made;
    }

    /// What was made at a place, where something was.
    pub fn find(&self, node: usize, depth: usize) -> Option<Link>
        ensures some { IfSome result (λ made. Among self.now ((node, depth), made)) }
        ensures none { IfNone result (Lacks self.now (node, depth)) }
    {
        self.made.get(&(node, depth)).copied()
    }

    /// Remembers what was made at a place where nothing was before. The error is want of memory.
    pub fn note(&mut self, node: usize, depth: usize, made: Owned) -> Result<(), AllocError>
        requires { Lacks self.old (node, depth) }
        ensures ok { OnOk result (self.new ≡ self.old ++ ((node, depth), made) ∷ []) }
        ensures err { OnErr result (self.new ≡ self.old) }
    {
        self.made.insert((node, depth), made)?;
        Ok(())
    }

    /// Forgets what came last, and gives its handle.
    pub fn take_last(&mut self) -> Option<Owned>
        ensures some { IfSome result (λ made. HasLast self.old self.new made) }
        ensures none { IfNone result (self.old ≡ []) }
    {
        let (_, made) = self.made.pop()?;
        Some(made)
    }
}
