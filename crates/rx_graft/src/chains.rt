//! The levels below one whole item each.

ghost use Rattle.std.specs.Prelude.{◌≡◌, Bool, List, [], ◌∷◌, ℕ, Option, IfOk, IfSome, IfNone};
ghost use Rattle.rx_level.specs.Store.{IsSound, tree_of};
ghost use Rattle.rx_level.specs.Step.{Lent, level_of};
ghost use Rattle.rx_level.specs.Standing.{StandsIn};
ghost use Rattle.rx_graft.specs.Hang.{chain};
ghost use Rattle.rx_graft.specs.Made.{AreLent, StandIn, levels_of};

use rx_level::{Levels, Link};
use rx_value::is_whole_span;
use std::alloc::{AllocError, Global};

// What a lent level that is one whole item leads to.
fn below_whole(levels: &Levels, nullable: bool, root: Link) -> Option<Link>
    requires sound { IsSound levels.now [] }
    requires root { Lent levels.now [] root }
    ensures some { IfSome result (λ child. (parts : List Bool) → chain (nullable ∷ parts) (level_of levels.now root) ≡ level_of levels.now child ∷ chain parts (level_of levels.now child)) }
    ensures lent { IfSome result (λ child. Lent levels.now [] child) }
    ensures stands { IfSome result (λ child. (m : ℕ) → StandsIn m (tree_of levels.now child) → StandsIn m (tree_of levels.now root)) }
    ensures none { IfNone result ((parts : List Bool) → chain (nullable ∷ parts) (level_of levels.now root) ≡ []) }
{
    let Some(top) = levels.look(root) else {
        return None;
    };
    if levels.count(top.left) != 0 {
        return None;
    }
    if levels.count(top.right) != 0 {
        return None;
    }
    if !is_whole_span(nullable, top.span) {
        return None;
    }
    Some(top.child)
}

/// The links of a lent level's whole items: while a level is one whole item, the level below it, and so
/// on. The error is want of memory.
pub fn chain_of(
    alloc: Global,
    levels: &Levels,
    parts: &[bool],
    root: Link,
) -> Result<Vec<Link>, AllocError>
    requires sound { IsSound levels.now [] }
    requires root { Lent levels.now [] root }
    ensures levels { IfOk result (λ links. levels_of levels.now links.items ≡ chain parts.now (level_of levels.now root)) }
    ensures lent { IfOk result (λ links. AreLent levels.now links.items) }
    ensures stand { IfOk result (λ links. StandIn levels.now links.items root) }
{
    let [nullable, rest @ ..] = parts else {
        return Ok(Vec::new(alloc));
    };
    let Some(child) = below_whole(levels, *nullable, root) else {
        return Ok(Vec::new(alloc));
    };
    let mut links = chain_of(alloc, levels, rest, child)?;
    links.insert(0, child)?;
    Ok(links)
}
