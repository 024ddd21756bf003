ghost use Rattle.std.specs.Prelude.{◌≡◌, [], ◌∷◌, ◌++◌, IfOk, OnOk, OnErr, map};
ghost use Rattle.rx_cond.specs.Tree.{tree_of};
ghost use Rattle.rx_cond.specs.Parts.{conjuncts_of, disjuncts_of};

use crate::conds::Cond;
use std::alloc::{AllocError, Global};
use std::marker::Model;

/// References to conditions in order.
#[derive(Drop)]
pub struct CondRefs<'a> {
    items: Vec<&'a Cond>,
}

impl<'a> Model for CondRefs<'a> {
    ghost use Rattle.std.specs.Prelude.{List, map};
    ghost use Rattle.rx_cond.specs.declared.conds.Cond.{Cond};
    ghost use Rattle.rx_cond.specs.contracts.conds.Cond as c;
    ghost use Rattle.std.specs.Coded.{codes};

    ghost Value = { List Cond };

    ghost coded = { Prim.hlevel (codes, c.the_row.coded) };

    ghost view = { λ c. map (λ r. r.now) c.items.items };
}

impl<'a> CondRefs<'a> {
    /// The empty list. Takes no memory.
    pub fn new(alloc: Global) -> CondRefs<'a>
        ensures { result ≡ [] }
    {
        CondRefs {
            items: Vec::new(alloc),
        }
    }

    /// Adds an item at the end. A refused call leaves the list.
    pub fn push(&mut self, item: &'a Cond) -> Result<(), AllocError>
        ensures ok { OnOk result (self.new ≡ self.old ++ item.now ∷ []) }
        ensures err { OnErr result (self.new ≡ self.old) }
    {
        self.items.push(item)?;
        Ok(())
    }

    /// The items in order.
    pub fn as_slice(&self) -> &[&'a Cond]
        ensures { map (λ r. r.now) result.now ≡ self.now }
    {
        self.items.as_slice()
    }
}

/// The conditions that together are this one: the items of a conjunction, those of a conjunction
/// among them in its place. Any other condition is its own only item. The error is want of memory.
pub fn conjuncts<'a>(alloc: Global, cond: &'a Cond) -> Result<CondRefs<'a>, AllocError>
    ensures { IfOk result (λ r. map tree_of r ≡ conjuncts_of (tree_of cond.now)) }
{
    let mut parts = CondRefs::new(alloc);
    add_conjuncts(&mut parts, cond)?;
    Ok(parts)
}

// Adds the conjuncts of a condition.
fn add_conjuncts<'a>(parts: &mut CondRefs<'a>, cond: &'a Cond) -> Result<(), AllocError>
    ensures { OnOk result (
        map tree_of parts.new ≡ map tree_of parts.old ++ conjuncts_of (tree_of cond.now)
        ) }
{
    match cond {
        Cond::Conj(items) => {
            for item in items {
                add_conjuncts(parts, item)?;
            }
            Ok(())
        }
        _ => parts.push(cond),
    }
}

/// The conditions of which one is enough: the items of a disjunction, those of a disjunction among
/// them in its place. Any other condition is its own only item. The error is want of memory.
pub fn disjuncts<'a>(alloc: Global, cond: &'a Cond) -> Result<CondRefs<'a>, AllocError>
    ensures { IfOk result (λ r. map tree_of r ≡ disjuncts_of (tree_of cond.now)) }
{
    let mut parts = CondRefs::new(alloc);
    add_disjuncts(&mut parts, cond)?;
    Ok(parts)
}

// Adds the disjuncts of a condition.
fn add_disjuncts<'a>(parts: &mut CondRefs<'a>, cond: &'a Cond) -> Result<(), AllocError>
    ensures { OnOk result (
        map tree_of parts.new ≡ map tree_of parts.old ++ disjuncts_of (tree_of cond.now)
        ) }
{
    match cond {
        Cond::Disj(items) => {
            for item in items {
                add_disjuncts(parts, item)?;
            }
            Ok(())
        }
        _ => parts.push(cond),
    }
}
