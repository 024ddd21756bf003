ghost use Rattle.rx_reading.specs.Reading.{name_at};

use crate::fronts::name_at;
use crate::items::Item;
use crate::read::{Read, Reading};
use rx_token::Token;
use rx_value::Bytes;
use std::alloc::Global;

/// Reads a name, between backquotes or a word that isn't reserved.
pub struct Names;

impl Item for Names {
    type Value = Bytes;

    ghost reader = { λ item. name_at };

    fn read_at<'a>(&self, alloc: Global, tokens: &'a [Token]) -> Reading<'a, Bytes> {
        let Some(name) = name_at(tokens) else {
            return Ok(None);
        };
        let value = Bytes::of(alloc, name.value)?;
        Ok(Some(Read {
            value,
            rest: name.rest,
        }))
    }
}
