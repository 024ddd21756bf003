//! The points at which a range begins, borrowed and in no memory of their own.

ghost use Rattle.std.specs.Prelude.{◌≡◌, ◌<◌, ◌≤◌, [], ◌∷◌, ◌++◌, length, slice_get, Some, IfOk};

use rx_value::{Key, MOST_PARTS, Value};
use std::alloc::{AllocError, Global};
use std::marker::Model;

/// Values of an arena, as many as an index has parts at most.
#[derive(Drop)]
pub(crate) struct Points<'a> {
    values: [Option<&'a Value>; MOST_PARTS],
    count: usize,
}

impl<'a> Model for Points<'a> {
    ghost use Rattle.std.specs.Prelude.{List};
    ghost use Rattle.rx_value.specs.declared.values.Value.{Value as value};
    ghost use Rattle.rx_walk.specs.Points.{IsFull, values_in};

    ghost Value = { List value };

    ghost view = { λ p. values_in p.count p.values };

    ghost invariant = { λ p. IsFull p.count p.values };
}

impl<'a> Points<'a> {
    /// No points.
    pub(crate) fn none() -> Points<'a>
        ensures { result ≡ [] }
    {
        Points {
            values: [None; MOST_PARTS],
            count: 0,
        }
    }

    /// The same points once more.
    pub(crate) fn again(&self) -> Points<'a>
        ensures { result ≡ self.now }
    {
        Points {
            values: self.values,
            count: self.count,
        }
    }

    /// These points and one behind them.
    pub(crate) fn with(&self, point: &'a Value) -> Points<'a>
        requires { length self.now < 16 }
        ensures { result ≡ self.now ++ point.now ∷ [] }
    {
        let mut values = self.values;
        values[self.count] = Some(point);
        Points {
            values,
            count: self.count + 1,
        }
    }

    /// The points in memory of their own. The error is want of memory.
    pub(crate) fn copy(&self, alloc: Global) -> Result<Key, AllocError>
        ensures { IfOk result (λ key. key ≡ self.now) }
    {
        let mut key = Key::with_capacity(alloc, self.count)?;
        'points: for place in 0..self.count {
            key.push(self.get(place).copy(alloc)?)?;
        }
        Ok(key)
    }

    /// How many points there are.
    pub(crate) fn len(&self) -> usize
        ensures count { result ≡ length self.now }
        ensures few { result ≤ 16 }
    {
        self.count
    }

    /// The point at a place, counted from 0.
    pub(crate) fn get(&self, place: usize) -> &'a Value
        requires { place < length self.now }
        ensures { slice_get self.now place ≡ Some result.now }
    {
        let values = &self.values[..];
        let value = values[place];
        match value {
            Some(value) => value,
            None => unreachable!(),
        }
    }
}
