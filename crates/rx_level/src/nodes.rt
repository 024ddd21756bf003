//! The nodes of the store, and the numbers that each keeps of what is below it.

ghost use Rattle.std.specs.Prelude.{◌≡◌, ◌<◌, ◌≤◌, ◌+◌, ◌-◌, ◌^◌, ℕ, List, [], ◌∷◌, Option, Some, None, IfSome, IfOk, OnOk, OnErr, IsTrue, max};
ghost use Rattle.slab.specs.Slab.{get, slab_len};
ghost use Rattle.rx_level.specs.Tree.{IsNear};
ghost use Rattle.rx_level.specs.Store.{IsSound, IsWithinStore, held_of, linked_in, leads, owed, rank_of, height_of, count_of, size_of, part_in, body_in, IsAt, Body};

use crate::links::{Link, Owned};
use crate::uses;
use rx_value::Span;
use slab::Slab;
use std::alloc::AllocError;

/// An item of a level, with the items to its left and right.
#[derive(Drop)]
pub struct Node {
    /// The part, counted from 0, whose positions the span is of.
    pub part: u32,
    pub span: Span,
    /// The level of the next part, none where the item holds all keys.
    pub child: Link,
    pub left: Link,
    pub right: Link,
    /// The longest way down over child, left and right.
    pub rank: u64,
    /// The longest way down over left and right.
    pub height: u64,
    /// The items of the level.
    pub count: u64,
    /// The items of the level and of all below it, those of a shared one counted at each place.
    pub size: u64,
    /// The links of the store that lead here.
    pub links: u64,
    /// The handles that lead here.
    pub held: u64,
}

/// What a node says of all below it.
#[derive(Clone, Copy, Drop)]
pub struct Numbers {
    pub rank: u64,
    pub height: u64,
    pub count: u64,
    pub size: u64,
}

/// The numbers of a link, 0 where it leads nowhere.
pub fn numbers_at(nodes: &Slab<Node>, root: Link) -> Numbers
    ensures rank { result.rank ≡ rank_of nodes.now root }
    ensures height { result.height ≡ height_of nodes.now root }
    ensures count { result.count ≡ count_of nodes.now root }
    ensures size { result.size ≡ size_of nodes.now root }
{
    if let Some(key) = root
        && let Some(node) = nodes.get(key)
    {
        return Numbers {
            rank: node.rank,
            height: node.height,
            count: node.count,
            size: node.size,
        };
    }
    Numbers {
        rank: 0,
        height: 0,
        count: 0,
        size: 0,
    }
}

// The numbers of a node over these links, if they fit.
fn numbers_over(nodes: &Slab<Node>, child: Link, left: Link, right: Link) -> Option<Numbers>
    ensures child { IfSome result (λ n. rank_of nodes.now child < n.rank) }
    ensures left { IfSome result (λ n. rank_of nodes.now left < n.rank) }
    ensures right { IfSome result (λ n. rank_of nodes.now right < n.rank) }
    ensures height { IfSome result (λ n. n.height ≡ 1 + max (height_of nodes.now left) (height_of nodes.now right)) }
    ensures count { IfSome result (λ n. n.count ≡ 1 + count_of nodes.now left + count_of nodes.now right) }
    ensures size { IfSome result (λ n. n.size ≡ 1 + size_of nodes.now child + size_of nodes.now left + size_of nodes.now right) }
{
    let below = numbers_at(nodes, child);
    let before = numbers_at(nodes, left);
    let after = numbers_at(nodes, right);
    let rank = below.rank.max(before.rank).max(after.rank).checked_add(1)?;
    let height = before.height.max(after.height).checked_add(1)?;
    let count = before.count.checked_add(after.count)?.checked_add(1)?;
    let beside = before.size.checked_add(after.size)?;
    let size = beside.checked_add(below.size)?.checked_add(1)?;
    Some(Numbers {
        rank,
        height,
        count,
        size,
    })
}

// The link is none, or leads to a node of this part.
fn is_at(nodes: &Slab<Node>, part: u64, root: Link) -> bool
    ensures { IsTrue result → IsAt nodes.now part root }
{
    let Some(key) = root else {
        return true;
    };
    match nodes.get(key) {
        Some(node) => u64::from(node.part) == part,
        None => false,
    }
}

// The links are of the parts that a node of this part may lead to: its child is of the next part, and its
// sides are of its own.
fn fits(nodes: &Slab<Node>, part: u32, child: Link, left: Link, right: Link) -> bool
    ensures child { IsTrue result → IsAt nodes.now (part + 1) child }
    ensures left { IsTrue result → IsAt nodes.now part left }
    ensures right { IsTrue result → IsAt nodes.now part right }
{
    let own = u64::from(part);
    is_at(nodes, own + 1, child) && is_at(nodes, own, left) && is_at(nodes, own, right)
}

// A new node takes over the links that are owed, if they are of the parts that it may lead to.
fn add(
    nodes: &mut Slab<Node>,
    part: u32,
    span: Span,
    child: Link,
    left: Link,
    right: Link,
) -> Result<usize, AllocError>
    requires near { IsNear (height_of nodes.old left) (height_of nodes.old right) }
    ensures sound { OnOk result ((rest : List (Option ℕ)) → IsSound nodes.old (child ∷ left ∷ right ∷ rest) → IsSound nodes.new rest) }
    ensures made { IfOk result (λ k. body_in (get nodes.new k) ≡ Some (record { span = span; child = child; left = left; right = right })) }
    ensures part { IfOk result (λ k. part_in (get nodes.new k) ≡ part) }
    ensures fresh { IfOk result (λ k. get nodes.old k ≡ None) }
    ensures held { IfOk result (λ k. (m : ℕ) → held_of nodes.new m ≡ held_of nodes.old m + leads m (Some k)) }
    ensures onto { OnOk result (IsWithinStore nodes.old nodes.new) }
    ensures len { OnOk result (slab_len nodes.new ≡ slab_len nodes.old + 1) }
    ensures err { OnErr result (nodes.new.slots ≡ nodes.old.slots) }
    ensures err_sound { OnErr result ((rest : List (Option ℕ)) → IsSound nodes.old rest → IsSound nodes.new rest) }
    ensures err_held { OnErr result ((m : ℕ) → held_of nodes.new m ≡ held_of nodes.old m) }
    ensures err_within { OnErr result (IsWithinStore nodes.new nodes.old) }
    ensures err_len { OnErr result (slab_len nodes.new ≡ slab_len nodes.old) }
{
    if !fits(nodes, part, child, left, right) {
        return Err(AllocError);
    }
    let numbers = numbers_over(nodes, child, left, right).ok_or(AllocError)?;
    let node = Node {
        part,
        span,
        child,
        left,
        right,
        rank: numbers.rank,
        height: numbers.height,
        count: numbers.count,
        size: numbers.size,
        links: 0,
        held: 1,
    };
    match nodes.insert(node) {
        Ok(key) => Ok(key),
        Err(_failed) => Err(AllocError),
    }
}

// Three links more fit.
fn has_room(nodes: &Slab<Node>, root: Link) -> bool
    ensures { IsTrue result → (m : ℕ) → 0 < leads m root → linked_in (get nodes.now m) < 2 ^ 64 - 3 }
{
    match root {
        Some(key) => uses::counts_at(nodes, key).links < u64::MAX - 3,
        None => true,
    }
}

/// A new node over the handles' trees, which are spent in every case. The error is want of memory; links of
/// other parts than a node of this part may lead to, which no caller gives, are answered the same.
pub fn make(
    nodes: &mut Slab<Node>,
    part: u32,
    span: Span,
    child: Owned,
    left: Owned,
    right: Owned,
) -> Result<usize, AllocError>
    requires near { IsNear (height_of nodes.old left) (height_of nodes.old right) }
    requires owned { (m : ℕ) → owed m (child ∷ left ∷ right ∷ []) ≤ held_of nodes.old m }
    ensures sound { (rest : List (Option ℕ)) → IsSound nodes.old rest → IsSound nodes.new rest }
    ensures made { IfOk result (λ k. body_in (get nodes.new k) ≡ Some (record { span = span; child = child; left = left; right = right })) }
    ensures part { IfOk result (λ k. part_in (get nodes.new k) ≡ part) }
    ensures fresh { IfOk result (λ k. get nodes.old k ≡ None) }
    ensures ok_held { IfOk result (λ k. (m : ℕ) → held_of nodes.new m + owed m (child ∷ left ∷ right ∷ []) ≡ held_of nodes.old m + leads m (Some k)) }
    ensures ok_onto { OnOk result (IsWithinStore nodes.old nodes.new) }
    ensures ok_len { OnOk result (slab_len nodes.new ≡ slab_len nodes.old + 1) }
    ensures err_held { OnErr result ((m : ℕ) → held_of nodes.new m + owed m (child ∷ left ∷ right ∷ []) ≡ held_of nodes.old m) }
    ensures err_within { OnErr result (IsWithinStore nodes.new nodes.old) }
    ensures err_len { OnErr result (slab_len nodes.new ≤ slab_len nodes.old) }
{
    if !has_room(nodes, child) || !has_room(nodes, left) || !has_room(nodes, right) {
        uses::release(nodes, child);
        uses::release(nodes, left);
        uses::release(nodes, right);
        return Err(AllocError);
    }
    uses::adopt(nodes, right);
    uses::adopt(nodes, left);
    uses::adopt(nodes, child);
    match add(nodes, part, span, child, left, right) {
        Ok(key) => Ok(key),
        Err(error) => {
            uses::unlink(nodes, child);
            uses::unlink(nodes, left);
            uses::unlink(nodes, right);
            Err(error)
        }
    }
}
