//! How often each node is used: the links that lead to it, and the handles.

ghost use Rattle.std.specs.Prelude.{◌≡◌, ◌≢◌, ◌<◌, ◌≤◌, ◌+◌, ◌-◌, ◌^◌, ℕ, List, [], ◌∷◌, Option, Some, None, IfSome, IfNone, OnSome, IsSome, IsTrue, false};
ghost use Rattle.slab.specs.Slab.{get, slab_len, Updates};
ghost use Rattle.rx_level.specs.declared.nodes.Node.{Node as node};
ghost use Rattle.rx_level.specs.Store.{IsSound, IsNearly, IsWithinStore, held_of, linked_in, leads, IsThere};

use crate::links::{Link, Owned};
use crate::nodes::Node;
use slab::Slab;

/// The links of a node that is gone.
#[derive(Clone, Copy, Drop)]
pub struct Links {
    pub child: Link,
    pub left: Link,
    pub right: Link,
}

/// How many links lead to a node, and how many handles.
#[derive(Clone, Copy, Drop)]
pub struct Counts {
    pub links: u64,
    pub held: u64,
}

// The counts of a node, 0 where there is none.
pub(crate) fn counts_at(nodes: &Slab<Node>, key: usize) -> Counts
    ensures links { result.links ≡ linked_in (get nodes.now key) }
    ensures held { result.held ≡ held_of nodes.now key }
{
    match nodes.get(key) {
        Some(node) => Counts {
            links: node.links,
            held: node.held,
        },
        None => Counts { links: 0, held: 0 },
    }
}

// Writes the counts of a node.
fn set_counts(nodes: &mut Slab<Node>, key: usize, counts: Counts)
    ensures updates { (v : node) → get nodes.old key ≡ Some v → Updates nodes.old nodes.new key (Some (record v { links = counts.links; held = counts.held })) }
    ensures absent { get nodes.old key ≡ None → nodes.new ≡ nodes.old }
    ensures within { IsWithinStore nodes.new nodes.old }
    ensures onto { IsWithinStore nodes.old nodes.new }
    ensures others { (m : ℕ) → m ≢ key → held_of nodes.new m ≡ held_of nodes.old m }
    ensures len { slab_len nodes.new ≡ slab_len nodes.old }
{
    if let Some(node) = nodes.get_mut(key) {
        node.links = counts.links;
        node.held = counts.held;
    }
}

// Takes a node away where nothing uses it.
fn settle(nodes: &mut Slab<Node>, key: usize) -> Option<Links>
    ensures some { IfSome result (λ w. (rest : List (Option ℕ)) → IsNearly nodes.old (Some key) rest → IsSound nodes.new (w.child ∷ w.left ∷ w.right ∷ rest)) }
    ensures none { IfNone result ((rest : List (Option ℕ)) → IsNearly nodes.old (Some key) rest → IsSound nodes.new rest) }
    ensures within { IsWithinStore nodes.new nodes.old }
    ensures held { (m : ℕ) → held_of nodes.new m ≡ held_of nodes.old m }
    ensures fewer { OnSome result (slab_len nodes.new < slab_len nodes.old) }
    ensures same { IfNone result (slab_len nodes.new ≡ slab_len nodes.old) }
{
    if !is_unused(nodes, key) {
        return None;
    }
    let node = nodes.try_remove(key)?;
    Some(Links {
        child: node.child,
        left: node.left,
        right: node.right,
    })
}

// No handle and no link leads to the node.
fn is_unused(nodes: &Slab<Node>, key: usize) -> bool
    ensures yes { IsTrue result → (v : node) → get nodes.now key ≡ Some v → (v.links ≡ 0) × (v.held ≡ 0) }
    ensures no { result ≡ false → (v : node) → get nodes.now key ≡ Some v → 0 < v.links + v.held }
{
    match nodes.get(key) {
        Some(node) => node.links == 0 && node.held == 0,
        None => true,
    }
}

// One link fewer leads to a node; the links that it leaves if it goes.
fn drop_link(nodes: &mut Slab<Node>, root: Link) -> Option<Links>
    ensures some { IfSome result (λ w. (rest : List (Option ℕ)) → IsSound nodes.old (root ∷ rest) → IsSound nodes.new (w.child ∷ w.left ∷ w.right ∷ rest)) }
    ensures none { IfNone result ((rest : List (Option ℕ)) → IsSound nodes.old (root ∷ rest) → IsSound nodes.new rest) }
    ensures within { IsWithinStore nodes.new nodes.old }
    ensures held { (m : ℕ) → held_of nodes.new m ≡ held_of nodes.old m }
    ensures fewer { OnSome result (slab_len nodes.new < slab_len nodes.old) }
    ensures same { IfNone result (slab_len nodes.new ≡ slab_len nodes.old) }
{
    let key = root?;
    if !lower_links(nodes, key) {
        return None;
    }
    settle(nodes, key)
}

// Writes one link fewer. Answers false where there was none.
fn lower_links(nodes: &mut Slab<Node>, key: usize) -> bool
    ensures done { IsTrue result → (rest : List (Option ℕ)) → IsSound nodes.old (Some key ∷ rest) → IsNearly nodes.new (Some key) rest }
    ensures not { result ≡ false → (rest : List (Option ℕ)) → IsSound nodes.old (Some key ∷ rest) → IsSound nodes.new rest }
    ensures within { IsWithinStore nodes.new nodes.old }
    ensures held { (m : ℕ) → held_of nodes.new m ≡ held_of nodes.old m }
    ensures len { slab_len nodes.new ≡ slab_len nodes.old }
{
    let counts = counts_at(nodes, key);
    if counts.links == 0 {
        return false;
    }
    set_counts(
        nodes,
        key,
        Counts {
            links: counts.links - 1,
            held: counts.held,
        },
    );
    true
}

/// One link fewer leads to a node; what nothing uses then goes, and what it alone led to.
pub(crate) fn unlink(nodes: &mut Slab<Node>, root: Link)
    ensures sound { (rest : List (Option ℕ)) → IsSound nodes.old (root ∷ rest) → IsSound nodes.new rest }
    ensures within { IsWithinStore nodes.new nodes.old }
    ensures held { (m : ℕ) → held_of nodes.new m ≡ held_of nodes.old m }
    ensures fewer { slab_len nodes.new ≤ slab_len nodes.old }
{
    if let Some(links) = drop_link(nodes, root) {
        unlink(nodes, links.child);
        unlink(nodes, links.left);
        unlink(nodes, links.right);
    }
}

/// One handle fewer leads to a node; what nothing uses then goes, and what it alone led to.
pub fn release(nodes: &mut Slab<Node>, root: Owned)
    requires { (m : ℕ) → leads m root ≤ held_of nodes.old m }
    ensures sound { (rest : List (Option ℕ)) → IsSound nodes.old rest → IsSound nodes.new rest }
    ensures within { IsWithinStore nodes.new nodes.old }
    ensures held { (m : ℕ) → held_of nodes.new m + leads m root ≡ held_of nodes.old m }
    ensures fewer { slab_len nodes.new ≤ slab_len nodes.old }
{
    if let Some(key) = root {
        lower_held(nodes, key);
        if let Some(links) = settle(nodes, key) {
            unlink(nodes, links.child);
            unlink(nodes, links.left);
            unlink(nodes, links.right);
        }
    }
}

// Writes one handle fewer.
fn lower_held(nodes: &mut Slab<Node>, key: usize)
    requires { 0 < held_of nodes.old key }
    ensures sound { (rest : List (Option ℕ)) → IsSound nodes.old rest → IsNearly nodes.new (Some key) rest }
    ensures within { IsWithinStore nodes.new nodes.old }
    ensures held { (m : ℕ) → held_of nodes.new m + leads m (Some key) ≡ held_of nodes.old m }
    ensures len { slab_len nodes.new ≡ slab_len nodes.old }
{
    let counts = counts_at(nodes, key);
    set_counts(
        nodes,
        key,
        Counts {
            links: counts.links,
            held: counts.held - 1,
        },
    );
}

/// One handle more leads to a node that is there.
pub fn hold(nodes: &mut Slab<Node>, root: Link)
    requires few { (m : ℕ) → 0 < leads m root → held_of nodes.old m < 2 ^ 64 - 1 }
    requires there { IsThere nodes.old root }
    ensures sound { (rest : List (Option ℕ)) → IsSound nodes.old rest → IsSound nodes.new rest }
    ensures within { IsWithinStore nodes.new nodes.old }
    ensures onto { IsWithinStore nodes.old nodes.new }
    ensures held { (m : ℕ) → held_of nodes.new m ≡ held_of nodes.old m + leads m root }
    ensures len { slab_len nodes.new ≡ slab_len nodes.old }
{
    if let Some(key) = root {
        raise_held(nodes, key);
    }
}

fn raise_held(nodes: &mut Slab<Node>, key: usize)
    requires few { held_of nodes.old key < 2 ^ 64 - 1 }
    requires there { IsSome (get nodes.old key) }
    ensures sound { (rest : List (Option ℕ)) → IsSound nodes.old rest → IsSound nodes.new rest }
    ensures within { IsWithinStore nodes.new nodes.old }
    ensures onto { IsWithinStore nodes.old nodes.new }
    ensures held { (m : ℕ) → held_of nodes.new m ≡ held_of nodes.old m + leads m (Some key) }
    ensures len { slab_len nodes.new ≡ slab_len nodes.old }
{
    let counts = counts_at(nodes, key);
    set_counts(
        nodes,
        key,
        Counts {
            links: counts.links,
            held: counts.held + 1,
        },
    );
}

// A handle becomes a link that is owed.
pub(crate) fn adopt(nodes: &mut Slab<Node>, root: Owned)
    requires owned { (m : ℕ) → leads m root ≤ held_of nodes.old m }
    requires few { (m : ℕ) → 0 < leads m root → linked_in (get nodes.old m) < 2 ^ 64 - 1 }
    ensures sound { (rest : List (Option ℕ)) → IsSound nodes.old rest → IsSound nodes.new (root ∷ rest) }
    ensures within { IsWithinStore nodes.new nodes.old }
    ensures onto { IsWithinStore nodes.old nodes.new }
    ensures held { (m : ℕ) → held_of nodes.new m + leads m root ≡ held_of nodes.old m }
    ensures links { (m : ℕ) → linked_in (get nodes.new m) ≡ linked_in (get nodes.old m) + leads m root }
    ensures len { slab_len nodes.new ≡ slab_len nodes.old }
{
    if let Some(key) = root {
        turn(nodes, key);
    }
}

fn turn(nodes: &mut Slab<Node>, key: usize)
    requires owned { 0 < held_of nodes.old key }
    requires few { linked_in (get nodes.old key) < 2 ^ 64 - 1 }
    ensures sound { (rest : List (Option ℕ)) → IsSound nodes.old rest → IsSound nodes.new (Some key ∷ rest) }
    ensures within { IsWithinStore nodes.new nodes.old }
    ensures onto { IsWithinStore nodes.old nodes.new }
    ensures held { (m : ℕ) → held_of nodes.new m + leads m (Some key) ≡ held_of nodes.old m }
    ensures links { (m : ℕ) → linked_in (get nodes.new m) ≡ linked_in (get nodes.old m) + leads m (Some key) }
    ensures len { slab_len nodes.new ≡ slab_len nodes.old }
{
    let counts = counts_at(nodes, key);
    set_counts(
        nodes,
        key,
        Counts {
            links: counts.links + 1,
            held: counts.held - 1,
        },
    );
}
