//! Levels that are held by handles and share what they have in common.

ghost use Rattle.std.specs.Prelude.{◌≡◌, ◌<◌, ◌≤◌, ◌+◌, ◌-◌, ◌^◌, ◌↔◌, ℕ, List, [], ◌∷◌, Option, Some, None, IfSome, IfNone, IsSome, IfOk, OnOk, OnErr, max};
ghost use Rattle.slab.specs.Slab.{get, slab_len};
ghost use Rattle.rx_tree.specs.Tree.{Level, level_size};
ghost use Rattle.rx_tree.specs.Join.{join_level, length_of};
ghost use Rattle.rx_tree.specs.Tree.Level.{item, end};
ghost use Rattle.rx_level.specs.Tree.{fork_of, Fork, IsNear, least};
ghost use Rattle.rx_level.specs.Store.{IsSound, IsReached, held_of, leads, part_of, root_in, total_held, tree_of};
ghost use Rattle.rx_level.specs.Under.{IsNumberUnder, IsUnder};
ghost use Rattle.rx_level.specs.Standing.{IsAtOneDepth, StandsIn};
ghost use Rattle.rx_level.specs.Step.{Owns, Step, Lent, level_of, tall_of, between};

use crate::links::{Link, Owned};
use crate::marking::count_under;
use crate::nodes::{self, Node};
use crate::trees::{self, Item, Opened, Seen};
use slab::Slab;
use std::alloc::{AllocError, Global};
use std::marker::Model;

/// Levels of items, kept as trees of nodes that are shared and never changed. A link leads to the
/// topmost node of a level, or is none where the level has no items.
#[derive(Drop)]
pub struct Levels {
    alloc: Global,
    nodes: Slab<Node>,
    handles: u64,
}

impl Model for Levels {
    ghost use Rattle.slab.specs.Slab.{Slab};
    ghost use Rattle.rx_level.specs.declared.nodes.Node.{Node as node};
    ghost use Rattle.rx_level.specs.Store.{IsCounted};

    ghost Value = { Slab node };

    ghost view = { λ a. a.nodes };

    ghost invariant = { λ a. IsCounted a.nodes a.handles };
}

impl Levels {
    /// No levels. Takes no memory.
    pub fn new(alloc: Global) -> Levels
        ensures sound { IsSound result [] }
        ensures live { slab_len result ≡ 0 }
        ensures held { total_held result ≡ 0 }
    {
        Levels {
            alloc,
            nodes: Slab::new(alloc),
            handles: 0,
        }
    }

    /// That the store is sound, on which a caller may build, that each item is reached from a handle, that
    /// no level's tree is high for its items, that an item stands at one depth of a tree, however often, and
    /// that the items of a tree are those that its link leads to.
    pub fn sound(&self)
        ensures sound { IsSound self.now [] }
        ensures reached { (m : ℕ) → IsSome (get self.now m) → IsReached self.now m }
        ensures low { (r : Option ℕ) → least (tall_of self.now r) ≤ length_of (level_of self.now r) }
        ensures one_depth { (r : Option ℕ) → IsAtOneDepth (tree_of self.now r) }
        ensures stands { (r : Option ℕ) (m : ℕ) → IsUnder self.now r m ↔ StandsIn m (tree_of self.now r) }
    {
        let _nodes = &self.nodes;
    }

    /// How many items there are in all levels.
    pub fn live(&self) -> u64
        ensures count { result ≡ slab_len self.now }
        ensures none { total_held self.now ≡ 0 → result ≡ 0 }
    {
        self.nodes.len() as u64
    }

    /// How many handles there are.
    pub fn handles(&self) -> u64
        ensures { result ≡ total_held self.now }
    {
        self.handles
    }

    /// How many items a level has.
    pub fn count(&self, root: Link) -> u64
        ensures { result ≡ length_of (level_of self.now root) }
    {
        nodes::numbers_at(&self.nodes, root).count
    }

    /// How many items a level and all below it have, those of a shared one counted at each place.
    pub fn size(&self, root: Link) -> u64
        ensures { result ≡ level_size (level_of self.now root) }
    {
        nodes::numbers_at(&self.nodes, root).size
    }

    /// The height of a level's tree.
    pub fn height(&self, root: Link) -> u64
        ensures { result ≡ tall_of self.now root }
    {
        nodes::numbers_at(&self.nodes, root).height
    }

    /// How many different items a level is made of, those of all levels below it among them. The error is
    /// want of memory.
    pub fn reached(&self, root: Link) -> Result<u64, AllocError>
        ensures { IfOk result (λ n. IsNumberUnder self.now root n) }
    {
        let mut marks = vec![in self.alloc; false; self.nodes.capacity()]?;
        Ok(count_under(&self.nodes, marks.as_mut_slice(), root))
    }

    /// The topmost item of a lent level, with what it leads to, which stays lent. None where the level
    /// has no items.
    pub fn look(&self, root: Link) -> Option<Seen<'_>>
        requires { Lent self.now [] root }
        ensures fork { IfSome result (λ o. fork_of (tree_of self.now root) ≡ Some (record { span = o.span.now; child = tree_of self.now o.child; left = tree_of self.now o.left; right = tree_of self.now o.right })) }
        ensures level { IfSome result (λ o. level_of self.now root ≡ join_level (level_of self.now o.left) (item o.span.now (level_of self.now o.child) (level_of self.now o.right))) }
        ensures child { IfSome result (λ o. Lent self.now [] o.child) }
        ensures left { IfSome result (λ o. Lent self.now [] o.left) }
        ensures right { IfSome result (λ o. Lent self.now [] o.right) }
        ensures part { IfSome result (λ o. o.part ≡ part_of self.now root) }
        ensures none { IfNone result (root ≡ None) }
    {
        trees::see(&self.nodes, root)
    }

    /// A handle more of a level that is held.
    pub fn share(&mut self, root: Link)
        requires held { (m : ℕ) → leads m root ≤ held_of self.old m }
        requires few { total_held self.old < 2 ^ 64 - 1 }
        ensures step { Step self.old self.new [] (root ∷ []) }
        ensures live { slab_len self.new ≡ slab_len self.old }
    {
        trees::share(&mut self.nodes, root);
        self.handles += root_count(root);
    }

    /// A handle more of what is lent. The error is want of memory.
    pub fn hold(&mut self, root: Link) -> Result<(), AllocError>
        requires { Lent self.old [] root }
        ensures ok { OnOk result (Step self.old self.new [] (root ∷ [])) }
        ensures err { OnErr result (self.new ≡ self.old) }
        ensures live { slab_len self.new ≡ slab_len self.old }
    {
        if self.handles == u64::MAX {
            return Err(AllocError);
        }
        trees::share(&mut self.nodes, root);
        self.handles += root_count(root);
        Ok(())
    }

    /// A handle is spent.
    pub fn free(&mut self, root: Owned)
        requires { Owns self.old (root ∷ []) }
        ensures step { Step self.old self.new (root ∷ []) [] }
        ensures live { slab_len self.new ≤ slab_len self.old }
    {
        trees::free(&mut self.nodes, root);
        self.handles -= root_count(root);
    }

    /// An item between two levels of near heights. The three handles are spent in every case. The error
    /// is want of memory; a child that isn't of the next part, or a level that isn't of the item's own part,
    /// which no caller gives, is answered the same.
    pub fn branch(&mut self, item: Item, left: Owned, right: Owned) -> Result<Owned, AllocError>
        requires owns { Owns self.old (item.child ∷ left ∷ right ∷ []) }
        requires near { IsNear (tall_of self.old left) (tall_of self.old right) }
        ensures ok { IfOk result (λ r. Step self.old self.new (item.child ∷ left ∷ right ∷ []) (r ∷ [])) }
        ensures fork { IfOk result (λ r. fork_of (tree_of self.new r) ≡ Some (record { span = item.span; child = tree_of self.old item.child; left = tree_of self.old left; right = tree_of self.old right })) }
        ensures level { IfOk result (λ r. level_of self.new r ≡ between self.old left item right) }
        ensures height { IfOk result (λ r. tall_of self.new r ≡ 1 + max (tall_of self.old left) (tall_of self.old right)) }
        ensures part { IfOk result (λ r. part_of self.new r ≡ item.part) }
        ensures live { slab_len self.new ≤ slab_len self.old + 1 }
        ensures err { OnErr result (Step self.old self.new (item.child ∷ left ∷ right ∷ []) []) }
    {
        let Item { part, span, child } = item;
        let spent = root_count(child) + root_count(left) + root_count(right);
        let made = trees::branch(&mut self.nodes, part, span, child, left, right);
        self.handles -= spent;
        let Ok(key) = made else {
            return Err(AllocError);
        };
        if self.handles == u64::MAX {
            trees::free(&mut self.nodes, Some(key));
            return Err(AllocError);
        }
        self.handles += 1;
        Ok(Some(key))
    }

    /// Takes a level apart at its topmost item: the handle is spent in every case, and those of what it
    /// leads to are given. The error is want of memory.
    pub fn open(&mut self, key: usize) -> Result<Opened, AllocError>
        requires { Owns self.old (Some key ∷ []) }
        ensures ok { IfOk result (λ o. Step self.old self.new (Some key ∷ []) (o.item.child ∷ o.left ∷ o.right ∷ [])) }
        ensures fork { IfOk result (λ o. fork_of (tree_of self.old (Some key)) ≡ Some (record { span = o.item.span; child = tree_of self.new o.item.child; left = tree_of self.new o.left; right = tree_of self.new o.right })) }
        ensures level { IfOk result (λ o. level_of self.old (Some key) ≡ between self.new o.left o.item o.right) }
        ensures height { IfOk result (λ o. tall_of self.old (Some key) ≡ 1 + max (tall_of self.new o.left) (tall_of self.new o.right)) }
        ensures near { IfOk result (λ o. IsNear (tall_of self.new o.left) (tall_of self.new o.right)) }
        ensures err { OnErr result (Step self.old self.new (Some key ∷ []) []) }
        ensures live { slab_len self.new ≤ slab_len self.old }
    {
        if self.handles > u64::MAX - 3 {
            trees::free(&mut self.nodes, Some(key));
            self.handles -= 1;
            return Err(AllocError);
        }
        let opened = trees::open(&mut self.nodes, self.alloc, key);
        self.handles -= 1;
        let Ok(opened) = opened else {
            return Err(AllocError);
        };
        let item = root_count(opened.item.child);
        self.handles += item + root_count(opened.left) + root_count(opened.right);
        Ok(opened)
    }
}

// 1 where the link leads somewhere.
fn root_count(root: Link) -> u64
    ensures { result ≡ root_in root }
{
    match root {
        Some(_) => 1,
        None => 0,
    }
}
