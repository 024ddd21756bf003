//! Levels as trees of nodes that are made and opened, and never changed.

ghost use Rattle.std.specs.Prelude.{◌≡◌, ◌<◌, ◌≤◌, ◌+◌, ◌-◌, ◌^◌, ℕ, List, [], ◌∷◌, Option, Some, None, IfSome, IfNone, IfOk, OnOk, OnErr};
ghost use Rattle.slab.specs.Slab.{get, slab_len};
ghost use Rattle.rx_tree.specs.Tree.{Level};
ghost use Rattle.rx_tree.specs.Join.{join_level};
ghost use Rattle.rx_tree.specs.Tree.Level.{item};
ghost use Rattle.rx_level.specs.Tree.{fork_of, Fork, IsNear};
ghost use Rattle.rx_level.specs.Store.{IsSound, IsThere, at, held_of, leads, part_of, body_in, Body, tree_of};
ghost use Rattle.rx_level.specs.Step.{Owns, Step, level_of, tall_of};

use crate::links::{Link, Owned};
use crate::nodes::{self, Node};
use crate::uses;
use rx_value::Span;
use slab::Slab;
use std::alloc::{AllocError, Global};

/// An item: its part, its span, and the level of the next part below it, none where it holds all keys.
#[derive(Drop)]
pub struct Item {
    /// The part, counted from 0, whose positions the span is of.
    pub part: u32,
    pub span: Span,
    pub child: Owned,
}

/// A node's own item, and the items to its left and right.
#[derive(Drop)]
pub struct Opened {
    pub item: Item,
    pub left: Owned,
    pub right: Owned,
}

/// A node's own item as it stands in the store, and what it leads to.
#[derive(Clone, Copy)]
pub struct Seen<'a> {
    /// The part, counted from 0, whose positions the span is of.
    pub part: u32,
    pub span: &'a Span,
    pub child: Link,
    pub left: Link,
    pub right: Link,
}

/// One more item between two levels of near heights. The three handles are spent in every case. The
/// error is want of memory; links of other parts than an item of this part may lead to, which no caller
/// gives, are answered the same.
pub fn branch(
    nodes: &mut Slab<Node>,
    part: u32,
    span: Span,
    child: Owned,
    left: Owned,
    right: Owned,
) -> Result<usize, AllocError>
    requires owns { Owns nodes.old (child ∷ left ∷ right ∷ []) }
    requires near { IsNear (tall_of nodes.old left) (tall_of nodes.old right) }
    ensures ok { IfOk result (λ k. Step nodes.old nodes.new (child ∷ left ∷ right ∷ []) (Some k ∷ [])) }
    ensures fork { IfOk result (λ k. fork_of (tree_of nodes.new (Some k)) ≡ Some (record { span = span; child = tree_of nodes.old child; left = tree_of nodes.old left; right = tree_of nodes.old right })) }
    ensures part { IfOk result (λ k. part_of nodes.new (Some k) ≡ part) }
    ensures live { OnOk result (slab_len nodes.new ≡ slab_len nodes.old + 1) }
    ensures err { OnErr result (Step nodes.old nodes.new (child ∷ left ∷ right ∷ []) []) }
    ensures err_live { OnErr result (slab_len nodes.new ≤ slab_len nodes.old) }
{
    match nodes::make(nodes, part, span, child, left, right) {
        Ok(key) => Ok(key),
        Err(error) => Err(error),
    }
}

/// A handle is spent.
pub fn free(nodes: &mut Slab<Node>, root: Owned)
    requires { Owns nodes.old (root ∷ []) }
    ensures step { Step nodes.old nodes.new (root ∷ []) [] }
    ensures live { slab_len nodes.new ≤ slab_len nodes.old }
{
    uses::release(nodes, root);
}

/// A handle more, where the count fits.
pub fn share(nodes: &mut Slab<Node>, root: Link)
    requires sound { IsSound nodes.old [] }
    requires few { (m : ℕ) → 0 < leads m root → held_of nodes.old m < 2 ^ 64 - 1 }
    requires there { IsThere nodes.old root }
    ensures step { Step nodes.old nodes.new [] (root ∷ []) }
    ensures there { (r : Option ℕ) → IsThere nodes.old r → IsThere nodes.new r }
    ensures trees { (r : Option ℕ) → IsThere nodes.old r → tree_of nodes.new r ≡ tree_of nodes.old r }
    ensures live { slab_len nodes.new ≡ slab_len nodes.old }
{
    uses::hold(nodes, root);
}

/// What the node of a link says, none where there is no node.
pub fn see<'a>(nodes: &'a Slab<Node>, root: Link) -> Option<Seen<'a>>
    ensures some { IfSome result (λ o. body_in (at nodes.now root) ≡ Some (record { span = o.span.now; child = o.child; left = o.left; right = o.right })) }
    ensures part { IfSome result (λ o. o.part ≡ part_of nodes.now root) }
    ensures none { IfNone result (at nodes.now root ≡ None) }
{
    let key = root?;
    let Some(node) = nodes.get(key) else {
        return None;
    };
    Some(Seen {
        part: node.part,
        span: &node.span,
        child: node.child,
        left: node.left,
        right: node.right,
    })
}

// What a node says, its span copied. The error is want of memory.
fn read(nodes: &Slab<Node>, alloc: Global, key: usize) -> Result<Opened, AllocError>
    ensures { IfOk result (λ o. body_in (get nodes.now key) ≡ Some (record { span = o.item.span; child = o.item.child; left = o.left; right = o.right })) }
{
    let Some(node) = nodes.get(key) else {
        return Err(AllocError);
    };
    let span = node.span.copy(alloc)?;
    let child = node.child;
    let part = node.part;
    Ok(Opened {
        item: Item { part, span, child },
        left: node.left,
        right: node.right,
    })
}

// A node's item, and a handle more of each link.
fn read_shared(nodes: &mut Slab<Node>, alloc: Global, key: usize) -> Result<Opened, AllocError>
    requires sound { IsSound nodes.old [] }
    requires few { (m : ℕ) → held_of nodes.old m < 2 ^ 64 - 3 }
    ensures ok { IfOk result (λ o. Step nodes.old nodes.new [] (o.item.child ∷ o.left ∷ o.right ∷ [])) }
    ensures fork { IfOk result (λ o. fork_of (tree_of nodes.old (Some key)) ≡ Some (record { span = o.item.span; child = tree_of nodes.new o.item.child; left = tree_of nodes.new o.left; right = tree_of nodes.new o.right })) }
    ensures err { OnErr result (nodes.new ≡ nodes.old) }
    ensures live { slab_len nodes.new ≡ slab_len nodes.old }
{
    let opened = read(nodes, alloc, key)?;
    share(nodes, opened.item.child);
    share(nodes, opened.left);
    share(nodes, opened.right);
    Ok(opened)
}

/// Takes a level apart at its root. The handle is spent in every case.
pub fn open(nodes: &mut Slab<Node>, alloc: Global, key: usize) -> Result<Opened, AllocError>
    requires owns { Owns nodes.old (Some key ∷ []) }
    requires few { (m : ℕ) → held_of nodes.old m < 2 ^ 64 - 3 }
    ensures ok { IfOk result (λ o. Step nodes.old nodes.new (Some key ∷ []) (o.item.child ∷ o.left ∷ o.right ∷ [])) }
    ensures fork { IfOk result (λ o. fork_of (tree_of nodes.old (Some key)) ≡ Some (record { span = o.item.span; child = tree_of nodes.new o.item.child; left = tree_of nodes.new o.left; right = tree_of nodes.new o.right })) }
    ensures err { OnErr result (Step nodes.old nodes.new (Some key ∷ []) []) }
    ensures live { slab_len nodes.new ≤ slab_len nodes.old }
{
    match read_shared(nodes, alloc, key) {
        Ok(opened) => {
            free(nodes, Some(key));
            Ok(opened)
        }
        Err(error) => {
            free(nodes, Some(key));
            Err(error)
        }
    }
}
