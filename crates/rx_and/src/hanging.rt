//! Levels hung below one another, where the parts of one come before those of the other.

ghost use Rattle.std.specs.Prelude.{◌≡◌, ◌<◌, ◌≤◌, ◌+◌, ℕ, List, [], ◌∷◌, Option, Some, None, IfOk, IfErr, OnErr, IfSome, IfNone, length};
ghost use Rattle.slab.specs.Slab.{slab_len};
ghost use Rattle.rx_tree.specs.Tree.{Level, level_size};
ghost use Rattle.rx_tree.specs.Canonical.{IsCanonicalLevel};
ghost use Rattle.rx_tree.specs.Meet.{both as both_level};
ghost use Rattle.rx_level.specs.Store.{IsSound};
ghost use Rattle.rx_level.specs.Step.{Step, Lent, level_of};
ghost use Rattle.rx_level.specs.Under.{IsNumberUnder};
ghost use Rattle.rx_graft.specs.Hang.{chain, depth_of};

use rx_graft::{GraftFault, chain_of, graft};
use rx_graph::GraphFault;
use rx_level::{Levels, Owned};
use rx_limit::within;
use std::alloc::Global;

/// What two lent levels have in common, where the second begins with as many whole items as the first goes down: the
/// second hung below the first. At most one item is made for each different item of the first. Nothing is done where
/// the second begins with no more whole items than the first.
pub fn hang_below(
    alloc: Global,
    levels: &mut Levels,
    parts: &[bool],
    g: usize,
    h: usize,
    limit: u64,
) -> Result<Option<Owned>, GraphFault>
    requires sound { IsSound levels.old [] }
    requires g { Lent levels.old [] (Some g) }
    requires h { Lent levels.old [] (Some h) }
    requires first { IsCanonicalLevel parts.now (level_of levels.old (Some g)) }
    requires second { IsCanonicalLevel parts.now (level_of levels.old (Some h)) }
    ensures ok { IfOk result (λ made. IfSome made (λ r. Step levels.old levels.new [] (r ∷ []))) }
    ensures level { IfOk result (λ made. IfSome made (λ r. level_of levels.new r ≡ both_level (level_of levels.old (Some g)) (level_of levels.old (Some h)))) }
    ensures small { IfOk result (λ made. IfSome made (λ r. level_size (level_of levels.new r) ≤ limit)) }
    ensures deep { IfOk result (λ made. IfSome made (λ r. depth_of (level_of levels.old (Some g)) ≤ length (chain parts.now (level_of levels.old (Some h))))) }
    ensures live { IfOk result (λ made. IfSome made (λ r. (n : ℕ) → IsNumberUnder levels.old (Some g) n → slab_len levels.new ≤ slab_len levels.old + n)) }
    ensures items { IfOk result (λ made. IfSome made (λ r. (n m k : ℕ) → IsNumberUnder levels.old (Some g) n → IsNumberUnder levels.old (Some h) m → IsNumberUnder levels.new r k → k ≤ n + m)) }
    ensures short { IfOk result (λ made. IfNone made (length (chain parts.now (level_of levels.old (Some h))) < depth_of (level_of levels.old (Some g)))) }
    ensures none { IfOk result (λ made. IfNone made (Step levels.old levels.new [] [])) }
    ensures more { IfOk result (λ made. IfSome made (λ r. length (chain parts.now (level_of levels.old (Some g))) < length (chain parts.now (level_of levels.old (Some h))))) }
    ensures same { IfOk result (λ made. IfNone made (length (chain parts.now (level_of levels.old (Some h))) ≤ length (chain parts.now (level_of levels.old (Some g))) → levels.new ≡ levels.old)) }
    ensures over { IfErr result (λ fault. fault ≡ GraphFault.OverLimit → limit < level_size (both_level (level_of levels.old (Some g)) (level_of levels.old (Some h)))) }
    ensures err { OnErr result (Step levels.old levels.new [] []) }
{
    levels.sound();
    let Ok(chain) = chain_of(alloc, levels, parts, Some(h)) else {
        return Err(GraphFault::NoMemory);
    };
    let Ok(own) = chain_of(alloc, levels, parts, Some(g)) else {
        return Err(GraphFault::NoMemory);
    };
    if chain.len() <= own.len() {
        return Ok(None);
    }
    match graft(alloc, levels, chain.as_slice(), g) {
        Ok(whole) => match within(levels, limit, whole) {
            Ok(kept) => Ok(Some(kept)),
            Err(fault) => Err(fault),
        },
        Err(GraftFault::Short) => Ok(None),
        Err(GraftFault::NoMemory) => Err(GraphFault::NoMemory),
    }
}
