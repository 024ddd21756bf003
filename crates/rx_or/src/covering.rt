//! Spans without a child laid over levels.

ghost use Rattle.std.specs.Prelude.{◌≡◌, ◌<◌, ◌≤◌, ◌+◌, ◌*◌, ◌^◌, ℕ, List, [], ◌∷◌, Option, Some, None, IfOk, OnErr};
ghost use Rattle.slab.specs.Slab.{slab_len};
ghost use Rattle.rx_tree.specs.Join.{length_of};
ghost use Rattle.rx_level.specs.Step.{Owns, Step, level_of, tall_of};
ghost use Rattle.rx_tree.specs.Cuts.{AreInOrder};
ghost use Rattle.rx_or.specs.Cover.{covered};

use crate::cutting::{cut_after, cut_before};
use crate::inserting::insert;
use rx_level::{Item, Levels, Owned, join};
use rx_value::Span;
use std::alloc::{AllocError, Global};

/// A level of this part over which a span without a child is laid: the span takes in the items that lie within it and
/// those without a child that it reaches, and cuts the others. Of a level of n items it makes at most 16
/// new ones for each bit of n, and 16, whoever else holds the level. The handle is spent in every case.
/// The error is want of memory.
pub fn cover(
    levels: &mut Levels,
    alloc: Global,
    part: u32,
    root: Owned,
    span: Span,
) -> Result<Owned, AllocError>
    requires owns { Owns levels.old (root ∷ []) }
    requires order { AreInOrder (level_of levels.old root) }
    ensures ok { IfOk result (λ r. Step levels.old levels.new (root ∷ []) (r ∷ [])) }
    ensures level { IfOk result (λ r. level_of levels.new r ≡ covered span (level_of levels.old root)) }
    ensures live { slab_len levels.new ≤ slab_len levels.old + 8 * tall_of levels.old root + 1 }
    ensures by_bits { (bits : ℕ) → length_of (level_of levels.old root) < 2 ^ bits → slab_len levels.new ≤ slab_len levels.old + 16 * bits + 16 }
    ensures err { OnErr result (Step levels.old levels.new (root ∷ []) []) }
{
    levels.sound();
    let made = lay(levels, alloc, part, root, span);
    made
}

// The same, with the number of new items by the height of the level: where the span touches no item it is one more.
fn lay(
    levels: &mut Levels,
    alloc: Global,
    part: u32,
    root: Owned,
    span: Span,
) -> Result<Owned, AllocError>
    requires owns { Owns levels.old (root ∷ []) }
    requires order { AreInOrder (level_of levels.old root) }
    ensures ok { IfOk result (λ r. Step levels.old levels.new (root ∷ []) (r ∷ [])) }
    ensures level { IfOk result (λ r. level_of levels.new r ≡ covered span (level_of levels.old root)) }
    ensures live { slab_len levels.new ≤ slab_len levels.old + 8 * tall_of levels.old root + 1 }
    ensures err { OnErr result (Step levels.old levels.new (root ∷ []) []) }
{
    match insert(levels, alloc, part, root, &span) {
        Ok(Some(whole)) => {
            levels.free(root);
            Ok(whole)
        }
        Ok(None) => replace(levels, alloc, part, root, span),
        Err(error) => {
            levels.free(root);
            Err(error)
        }
    }
}

// The same, by cutting the level at both ends of the span.
fn replace(
    levels: &mut Levels,
    alloc: Global,
    part: u32,
    root: Owned,
    span: Span,
) -> Result<Owned, AllocError>
    requires owns { Owns levels.old (root ∷ []) }
    requires order { AreInOrder (level_of levels.old root) }
    ensures ok { IfOk result (λ r. Step levels.old levels.new (root ∷ []) (r ∷ [])) }
    ensures level { IfOk result (λ r. level_of levels.new r ≡ covered span (level_of levels.old root)) }
    ensures live { slab_len levels.new ≤ slab_len levels.old + 8 * tall_of levels.old root + 1 }
    ensures err { OnErr result (Step levels.old levels.new (root ∷ []) []) }
{
    let Ok(()) = levels.hold(root) else {
        levels.free(root);
        return Err(AllocError);
    };
    let Span { lo, hi } = span;
    match cut_before(levels, alloc, root, lo) {
        Ok(front) => match cut_after(levels, alloc, root, hi) {
            Ok(back) => {
                let span = Span {
                    lo: front.edge,
                    hi: back.edge,
                };
                let item = Item {
                    part,
                    span,
                    child: None,
                };
                let whole = join(levels, front.rest, item, back.rest)?;
                Ok(whole)
            }
            Err(error) => {
                levels.free(front.rest);
                Err(error)
            }
        },
        Err(error) => {
            levels.free(root);
            Err(error)
        }
    }
}
