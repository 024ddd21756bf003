//! One graph hung below another.

ghost use Rattle.std.specs.Prelude.{◌≡◌, ◌<◌, ◌≤◌, ◌+◌, ℕ, List, [], ◌∷◌, Option, Some, None, IfOk, IfErr, OnOk, OnErr, length};
ghost use Rattle.slab.specs.Slab.{slab_len};
ghost use Rattle.rx_tree.specs.Tree.{Level};
ghost use Rattle.rx_level.specs.Store.{IsSound};
ghost use Rattle.rx_level.specs.Step.{Owns, Step, Lent, level_of};
ghost use Rattle.rx_level.specs.Under.{IsNumberUnder};
ghost use Rattle.rx_graft.specs.Hang.{hung, depth_of};
ghost use Rattle.rx_graft.specs.Made.{Made, AreLent, StandIn, handles_of, levels_of};

use crate::hanging::{GraftFault, hang};
use crate::memory::Memory;
use rx_level::{Levels, Link, Owned};
use std::alloc::Global;

// Spends the handles of what a memory holds.
fn forget(levels: &mut Levels, memory: &mut Memory)
    requires { Owns levels.old (handles_of memory.old) }
    ensures step { Step levels.old levels.new (handles_of memory.old) [] }
    ensures live { slab_len levels.new ≤ slab_len levels.old }
{
    'entries: while let Some(made) = memory.take_last() {
        levels.free(made);
    }
}

/// A lent level with a list of lent links hung below: below each item without a child, so many levels
/// down, hangs the level of the link that stands so far in the list. Each node of the level is made once,
/// whatever the number of places where it stands.
///
/// # Errors
///
/// Short comes only where the level goes further down than the list, NoMemory where memory is wanting.
pub fn graft(
    alloc: Global,
    levels: &mut Levels,
    chain: &[Link],
    root: usize,
) -> Result<Owned, GraftFault>
    requires sound { IsSound levels.old [] }
    requires root { Lent levels.old [] (Some root) }
    requires chain { AreLent levels.old chain.now }
    ensures ok { IfOk result (λ r. Step levels.old levels.new [] (r ∷ [])) }
    ensures level { IfOk result (λ r. level_of levels.new r ≡ hung (levels_of levels.old chain.now) (level_of levels.old (Some root))) }
    ensures deep { OnOk result (depth_of (level_of levels.old (Some root)) ≤ length chain.now) }
    ensures short { IfErr result (λ fault. fault ≡ GraftFault.Short → length chain.now < depth_of (level_of levels.old (Some root))) }
    ensures live { OnOk result ((n : ℕ) → IsNumberUnder levels.old (Some root) n → slab_len levels.new ≤ slab_len levels.old + n) }
    ensures shared { IfOk result (λ r. (h : Option ℕ) → StandIn levels.old chain.now h → (n m k : ℕ) → IsNumberUnder levels.old (Some root) n → IsNumberUnder levels.old h m → IsNumberUnder levels.new r k → k ≤ n + m) }
    ensures err { OnErr result (Step levels.old levels.new [] []) }
{
    let mut memory = Memory::new(alloc);
    levels.sound();
    match hang(levels, alloc, &mut memory, chain, 0, Some(root)) {
        Ok(made) => {
            memory.different();
            forget(levels, &mut memory);
            levels.sound();
            Ok(made)
        }
        Err(fault) => {
            forget(levels, &mut memory);
            Err(fault)
        }
    }
}
