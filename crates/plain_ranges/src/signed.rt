//! A condition and the conditions under it, each with the sign of being looked at where it can be true, or false.

use crate::cans::{Possible, all_can, any_can, can};
use crate::places::Place;
use rx_cond::Cond;
use std::alloc::{AllocError, Global};

/// A condition, or the first items of a conjunction or a disjunction.
#[derive(Clone, Copy)]
pub enum Sub<'a> {
    One(&'a Cond),
    All(&'a [Cond]),
    Any(&'a [Cond]),
}

/// A condition with its sign.
#[derive(Clone, Copy)]
pub struct Signed<'a> {
    sub: Sub<'a>,
    is_positive: bool,
}

impl<'a> Signed<'a> {
    /// A condition that is looked at where it can be true.
    pub fn positive(cond: &'a Cond) -> Signed<'a> {
        Signed {
            sub: Sub::One(cond),
            is_positive: true,
        }
    }

    fn can(self, alloc: Global, tuple: &[Place<'_>]) -> Result<Possible, AllocError> {
        match self.sub {
            Sub::One(cond) => can(alloc, cond, tuple),
            Sub::All(items) => all_can(alloc, items, tuple),
            Sub::Any(items) => any_can(alloc, items, tuple),
        }
    }

    /// Whether a tuple of regions is one of those that are looked at.
    pub fn holds(self, alloc: Global, tuple: &[Place<'_>]) -> Result<bool, AllocError> {
        let can = self.can(alloc, tuple)?;
        Ok(if self.is_positive {
            can.is_true
        } else {
            can.is_false
        })
    }
}

/// The condition and all conditions under it, with their signs.
pub fn signed_under<'a>(alloc: Global, cond: &'a Cond) -> Result<Vec<Signed<'a>>, AllocError> {
    let mut list = Vec::new(alloc);
    add_under(cond, true, &mut list)?;
    Ok(list)
}

#[cycle(signed)]
fn add_under<'a>(
    cond: &'a Cond,
    is_positive: bool,
    into: &mut Vec<Signed<'a>>,
) -> Result<(), AllocError> {
    into.push(Signed {
        sub: Sub::One(cond),
        is_positive,
    })?;
    match cond {
        Cond::Neg(inner) => add_under(inner, !is_positive, into),
        Cond::Conj(items) => {
            add_fronts(Sub::All(items), items.len(), is_positive, into)?;
            add_items(items, is_positive, into)
        }
        Cond::Disj(items) => {
            add_fronts(Sub::Any(items), items.len(), is_positive, into)?;
            add_items(items, is_positive, into)
        }
        _ => Ok(()),
    }
}

#[cycle(signed)]
fn add_items<'a>(
    items: &'a [Cond],
    is_positive: bool,
    into: &mut Vec<Signed<'a>>,
) -> Result<(), AllocError> {
    for item in items {
        add_under(item, is_positive, into)?;
    }
    Ok(())
}

// The first items of a conjunction or a disjunction, so many of them.
fn front(sub: Sub<'_>, count: usize) -> Sub<'_> {
    match sub {
        Sub::One(cond) => Sub::One(cond),
        Sub::All(items) => Sub::All(items.get(..count).unwrap_or(items)),
        Sub::Any(items) => Sub::Any(items.get(..count).unwrap_or(items)),
    }
}

// Adds the conjunction or the disjunction of each number of first items.
fn add_fronts<'a>(
    sub: Sub<'a>,
    items: usize,
    is_positive: bool,
    into: &mut Vec<Signed<'a>>,
) -> Result<(), AllocError> {
    for count in 1..items {
        into.push(Signed {
            sub: front(sub, count),
            is_positive,
        })?;
    }
    Ok(())
}
