//! Levels by themselves, put together and taken apart.

ghost use Rattle.std.specs.Prelude.{List, [], ◌∷◌, IfOk};
ghost use Rattle.rx_level.specs.Store.{IsSound};
ghost use Rattle.rx_level.specs.Step.{Step};

use crate::faults::Fault;
use crate::spans::spans_of;
use crate::told::Told;
use rx_level::{Levels, Owned, append, build, join, take_first};
use std::alloc::{AllocError, Global};

// A level of a list of spans.
fn built(levels: &mut Levels, alloc: Global, text: &str) -> Result<Owned, Fault>
    requires { IsSound levels.old [] }
    ensures { IfOk result (λ r. Step levels.old levels.new [] (r ∷ [])) }
{
    let spans = spans_of(alloc, text)?;
    match build(levels, 0, spans) {
        Ok(level) => Ok(level),
        Err(AllocError) => Err(Fault::NoMemory),
    }
}

/// What is told of the levels of two lists of spans that are put together; `other` is how many items it has without
/// the first, and `alone` how many once that is back.
pub fn levels_told(alloc: Global, left: &str, right: &str) -> Result<Told, Fault> {
    let mut levels = Levels::new(alloc);
    let left = built(&mut levels, alloc, left)?;
    let right = built(&mut levels, alloc, right)?;
    let Ok(Some(key)) = append(&mut levels, left, right) else {
        return Err(Fault::NoMemory);
    };
    let mut told = Told::new();
    told.first = levels.count(Some(key));
    told.size = levels.size(Some(key));
    told.live = levels.live();
    told.height = levels.height(Some(key));
    let Ok(first) = take_first(&mut levels, key) else {
        return Err(Fault::NoMemory);
    };
    told.other = levels.count(first.rest);
    let Ok(again) = join(&mut levels, None, first.item, first.rest) else {
        return Err(Fault::NoMemory);
    };
    told.alone = levels.count(again);
    levels.free(again);
    told.handles = levels.handles();
    Ok(told)
}
