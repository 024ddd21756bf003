//! Pairs that are remembered: a memory holds both levels of a pair, and what was made of them.

ghost use Rattle.std.specs.Prelude.{◌≡◌, ◌≤◌, ◌++◌, ◌∷◌, ℕ, List, [], Option, Some, OnOk, OnErr};
ghost use Rattle.slab.specs.Slab.{slab_len};
ghost use Rattle.rx_level.specs.Store.{IsSound};
ghost use Rattle.rx_level.specs.Step.{Owns, Step, Lent};
ghost use Rattle.rx_pairs.specs.Pairs.{Made, Lacks, handles_of};

use crate::memory::Memory;
use rx_level::{Levels, Link};
use std::alloc::{AllocError, Global};

// A handle of each of three lent levels. The error is want of memory.
fn hold_three(levels: &mut Levels, first: Link, second: Link, third: Link) -> Result<(), AllocError>
    requires sound { IsSound levels.old [] }
    requires first { Lent levels.old [] first }
    requires second { Lent levels.old [] second }
    requires third { Lent levels.old [] third }
    ensures ok { OnOk result (Step levels.old levels.new [] (first ∷ second ∷ third ∷ [])) }
    ensures live { slab_len levels.new ≤ slab_len levels.old }
    ensures err { OnErr result (Step levels.old levels.new [] []) }
{
    let Ok(()) = levels.hold(first) else {
        return Err(AllocError);
    };
    let Ok(()) = levels.hold(second) else {
        levels.free(first);
        return Err(AllocError);
    };
    let Ok(()) = levels.hold(third) else {
        levels.free(first);
        levels.free(second);
        return Err(AllocError);
    };
    Ok(())
}

// Spends a handle of each of three levels.
fn free_three(levels: &mut Levels, first: Link, second: Link, third: Link)
    requires { Owns levels.old (first ∷ second ∷ third ∷ []) }
    ensures step { Step levels.old levels.new (first ∷ second ∷ third ∷ []) [] }
    ensures live { slab_len levels.new ≤ slab_len levels.old }
{
    levels.free(first);
    levels.free(second);
    levels.free(third);
}

/// Remembers what was made of a pair of lent levels, of which nothing was before, and holds all three. The error is
/// want of memory.
pub fn remember(
    levels: &mut Levels,
    memory: &mut Memory,
    first: usize,
    second: usize,
    made: Link,
) -> Result<(), AllocError>
    requires sound { IsSound levels.old [] }
    requires first { Lent levels.old [] (Some first) }
    requires second { Lent levels.old [] (Some second) }
    requires made { Lent levels.old [] made }
    requires lacks { Lacks memory.old (first, second) }
    ensures ok { OnOk result (Step levels.old levels.new [] (Some first ∷ Some second ∷ made ∷ [])) }
    ensures noted { OnOk result (memory.new ≡ memory.old ++ ((first, second), made) ∷ []) }
    ensures live { slab_len levels.new ≤ slab_len levels.old }
    ensures err { OnErr result (Step levels.old levels.new [] []) }
    ensures unknown { OnErr result (memory.new ≡ memory.old) }
{
    hold_three(levels, Some(first), Some(second), made)?;
    let Ok(()) = memory.note(first, second, made) else {
        free_three(levels, Some(first), Some(second), made);
        return Err(AllocError);
    };
    Ok(())
}

/// Spends the handles of all that a memory holds.
pub fn forget(levels: &mut Levels, memory: Memory)
    requires { Owns levels.old (handles_of memory) }
    ensures step { Step levels.old levels.new (handles_of memory) [] }
    ensures live { slab_len levels.new ≤ slab_len levels.old }
{
    let mut memory = memory;
    'entries: while let Some(((first, second), made)) = memory.take_last() {
        free_three(levels, Some(first), Some(second), made);
    }
}
