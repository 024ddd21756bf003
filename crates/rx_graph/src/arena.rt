//! The arena and its handles.

ghost use Rattle.std.specs.Prelude.{◌≡◌, ◌<◌, ◌≤◌, ◌+◌, ◌-◌, ◌^◌, ℕ, Bool, List, [], ◌∷◌, Option, Some, None, IsSome, IfOk, OnOk, OnErr, IsTrue, min, ◌↔◌};
ghost use Rattle.slab.specs.Slab.{get, slab_len};
ghost use Rattle.rx_value.specs.declared.order.End.{End as end_of_span};
ghost use Rattle.rx_tree.specs.Tree.{Tree, size};
ghost use Rattle.rx_tree.specs.Member.{IsTuple, HoldSame, holds};
ghost use Rattle.rx_tree.specs.Points.{AreSpansAt, is_inside_at, point_tree};
ghost use Rattle.rx_level.specs.Store.{IsSound, IsReached, tree_of};
ghost use Rattle.rx_level.specs.Under.{IsNumberUnder, IsUnder};
ghost use Rattle.rx_level.specs.Standing.{IsAtOneDepth, StandsIn};
ghost use Rattle.rx_graph.specs.declared.handles.Root.TheVariants.{Everything as all_keys, Nothing as no_keys};
ghost use Rattle.rx_graph.specs.Graph.{Graph, IsPartList, Steps, IsHeld, AreCanonical, handle_count, link_of, tree_in};

use crate::handles::{Handle, Root};
use crate::parts::Parts;
use crate::points::level_at;
use crate::rising::are_spans_at;
use crate::wholes::is_whole_at;
use rx_level::{Levels, same_levels};
use rx_value::SpanList;
use std::alloc::{AllocError, Global};
use std::marker::Model;
use std::mem;

/// Trees of intervals over up to 16 parts, under handles that are counted.
#[derive(Drop)]
pub struct Arena {
    alloc: Global,
    nullable: Parts,
    levels: Levels,
    all: u64,
    none: u64,
}

impl Model for Arena {
    ghost use Rattle.rx_graph.specs.Graph.{Graph, IsKept};

    ghost Value = { Graph };

    ghost view = { λ a. record { nullable = a.nullable; store = a.levels; all = a.all; none = a.none } };

    ghost invariant = { λ a. IsKept (record { nullable = a.nullable; store = a.levels; all = a.all; none = a.none }) };
}

impl Arena {
    /// No trees, over the parts of an index, each of which may be NULL or not. The error is want of memory.
    pub fn new(alloc: Global, nullable: &[bool]) -> Result<Arena, AllocError>
        requires { IsPartList nullable.now }
        ensures parts { IfOk result (λ a. a.nullable ≡ nullable.now) }
        ensures handles { IfOk result (λ a. handle_count a ≡ 0) }
        ensures live { IfOk result (λ a. slab_len a.store ≡ 0) }
        ensures canonical { IfOk result (λ a. AreCanonical a) }
    {
        let nullable = Parts::new(alloc, nullable)?;
        Ok(Arena {
            alloc,
            nullable,
            levels: Levels::new(alloc),
            all: 0,
            none: 0,
        })
    }

    /// A handle of the tree that holds all keys.
    pub fn everything(&mut self) -> Handle
        requires { handle_count self.old < 2 ^ 32 - 1 }
        ensures root { result ≡ all_keys }
        ensures store { self.new.store ≡ self.old.store }
        ensures step { Steps self.old self.new [] (result ∷ []) }
        ensures count { handle_count self.new ≡ handle_count self.old + 1 }
        ensures canonical { AreCanonical self.new }
    {
        self.all += 1;
        Handle::of(Root::Everything)
    }

    /// A handle of the tree that holds no key.
    pub fn nothing(&mut self) -> Handle
        requires { handle_count self.old < 2 ^ 32 - 1 }
        ensures root { result ≡ no_keys }
        ensures store { self.new.store ≡ self.old.store }
        ensures step { Steps self.old self.new [] (result ∷ []) }
        ensures count { handle_count self.new ≡ handle_count self.old + 1 }
        ensures canonical { AreCanonical self.new }
    {
        self.none += 1;
        Handle::of(Root::Nothing)
    }

    /// One more handle of a tree.
    pub fn share(&mut self, h: &Handle) -> Handle
        requires held { IsHeld self.old (h.now ∷ []) }
        requires few { handle_count self.old < 2 ^ 32 - 1 }
        ensures root { result ≡ h.now }
        ensures step { Steps self.old self.new [] (result ∷ []) }
        ensures count { handle_count self.new ≡ handle_count self.old + 1 }
        ensures canonical { AreCanonical self.new }
    {
        match h.root() {
            Root::Everything => self.everything(),
            Root::Nothing => self.nothing(),
            Root::Items(key) => {
                self.levels.share(Some(key));
                Handle::of(Root::Items(key))
            }
        }
    }

    /// Spends a handle. Items that no handle leads to any more go.
    pub fn release(&mut self, h: Handle)
        requires { IsHeld self.old (h ∷ []) }
        ensures step { Steps self.old self.new (h ∷ []) [] }
        ensures count { handle_count self.new + 1 ≡ handle_count self.old }
        ensures live { slab_len self.new.store ≤ slab_len self.old.store }
        ensures without_items { link_of h ≡ None → self.new.store ≡ self.old.store }
        ensures canonical { AreCanonical self.new }
    {
        match h.into_root() {
            Root::Everything => self.all -= 1,
            Root::Nothing => self.none -= 1,
            Root::Items(key) => {
                self.levels.sound();
                self.levels.free(Some(key));
            }
        }
    }

    /// That the tree of each handle is canonical, that there are fewer than 2^32 handles, that each item is reached from a handle, that an item stands
    /// at one depth of a tree, however often, that the items of a tree are those that its link leads to, and
    /// that the store of levels is sound, on which a crate that works on levels builds.
    pub fn sound(&self)
        ensures canonical { AreCanonical self.now }
        ensures few { handle_count self.now < 2 ^ 32 }
        ensures sound { IsSound self.now.store [] }
        ensures reached { (m : ℕ) → IsSome (get self.now.store m) → IsReached self.now.store m }
        ensures one_depth { (r : Option ℕ) → IsAtOneDepth (tree_of self.now.store r) }
        ensures stands { (r : Option ℕ) (m : ℕ) → IsUnder self.now.store r m ↔ StandsIn m (tree_of self.now.store r) }
    {
        self.levels.sound();
    }

    /// How many items there are.
    pub fn live(&self) -> u64
        ensures count { result ≡ slab_len self.now.store }
        ensures none { handle_count self.now ≡ 0 → result ≡ 0 }
    {
        self.levels.live()
    }

    /// How many handles there are, or 2^64 - 1 where that is less.
    pub fn handles(&self) -> u64
        ensures { result ≡ min (handle_count self.now) (2 ^ 64 - 1) }
    {
        let without_items = self.all.saturating_add(self.none);
        self.levels.handles().saturating_add(without_items)
    }

    /// How many different items a tree is made of. The error is want of memory.
    pub fn items(&self, h: &Handle) -> Result<u64, AllocError>
        ensures { IfOk result (λ n. IsNumberUnder self.now.store (link_of h.now) n) }
    {
        self.levels.reached(h.link())
    }

    /// The items of a tree, those of a shared level counted at each place.
    pub fn tree_size(&self, h: &Handle) -> u64
        ensures { result ≡ size (tree_in self.now h.now) }
    {
        match h.root() {
            Root::Everything => 0,
            Root::Nothing => 0,
            Root::Items(key) => self.levels.size(Some(key)),
        }
    }

    /// Whether `point_set` takes these spans at this part: they rise and don't touch, and none begins
    /// below the first position of the part, which is one of the arena's.
    pub fn accepts(&self, part: u32, spans: &SpanList) -> bool
        ensures { IsTrue result ↔ AreSpansAt self.now.nullable part spans.now }
    {
        are_spans_at(self.nullable.as_slice(), part, spans.as_slice())
    }

    /// The tree of the keys whose part lies in one of the spans, which rise and don't touch. Spans that
    /// are the whole part give everything, and no span gives nothing. The error is want of memory; it
    /// leaves every handle's tree.
    pub fn point_set(&mut self, part: u32, spans: SpanList) -> Result<Handle, AllocError>
        requires spans { AreSpansAt self.old.nullable part spans }
        requires few { handle_count self.old < 2 ^ 32 - 1 }
        ensures ok { IfOk result (λ h. Steps self.old self.new [] (h ∷ [])) }
        ensures tree { IfOk result (λ h. tree_in self.new h ≡ point_tree self.old.nullable part spans) }
        ensures keys { IfOk result (λ h. (ps : List end_of_span) → IsTuple self.old.nullable ps → holds (tree_in self.new h) ps ≡ is_inside_at part spans ps) }
        ensures err { OnErr result (Steps self.old self.new [] []) }
        ensures count { OnOk result (handle_count self.new ≡ handle_count self.old + 1) }
        ensures err_count { OnErr result (handle_count self.new ≡ handle_count self.old) }
        ensures canonical { AreCanonical self.new }
    {
        if spans.as_slice().is_empty() {
            return Ok(self.nothing());
        }
        if is_whole_at(self.nullable.as_slice(), part, spans.as_slice()) {
            return Ok(self.everything());
        }
        self.levels.sound();
        let made = level_at(&mut self.levels, self.nullable.as_slice(), 0, part, spans);
        let Ok(level) = made else {
            return Err(AllocError);
        };
        match level {
            Some(key) => Ok(Handle::of(Root::Items(key))),
            None => Ok(self.nothing()),
        }
    }

    /// Whether two trees hold the same keys. Takes no memory.
    pub fn same(&self, g: &Handle, h: &Handle) -> bool
        requires g { IsHeld self.now (g.now ∷ []) }
        requires h { IsHeld self.now (h.now ∷ []) }
        ensures trees { IsTrue result ↔ (tree_in self.now g.now ≡ tree_in self.now h.now) }
        ensures keys { IsTrue result ↔ HoldSame self.now.nullable (tree_in self.now g.now) (tree_in self.now h.now) }
    {
        match (g.root(), h.root()) {
            (Root::Everything, Root::Everything) => true,
            (Root::Nothing, Root::Nothing) => true,
            (Root::Items(first), Root::Items(second)) => same_levels(
                &self.levels,
                Some(first),
                Some(second),
            ),
            _ => false,
        }
    }

    /// The parts, each with whether it may be NULL.
    pub fn parts(&self) -> &[bool]
        ensures items { result.now ≡ self.now.nullable }
        ensures number { IsPartList self.now.nullable }
    {
        self.nullable.as_slice()
    }

    /// The levels, to be read.
    pub fn levels(&self) -> &Levels
        ensures { result.now ≡ self.now.store }
    {
        &self.levels
    }

    /// The levels, for a crate that works on them and puts them back. Takes no memory.
    pub fn take_levels(&mut self) -> Levels
        ensures levels { result ≡ self.old.store }
        ensures rest { self.new ≡ record self.old { store = self.new.store } }
    {
        mem::replace(&mut self.levels, Levels::new(self.alloc))
    }

    /// Puts back the levels that were taken. Roots of levels that they hold are handles again, and their
    /// trees are canonical.
    pub fn put_levels(&mut self, levels: Levels)
        requires canonical { AreCanonical (record self.old { store = levels }) }
        requires few { handle_count (record self.old { store = levels }) < 2 ^ 32 }
        ensures { self.new ≡ record self.old { store = levels } }
    {
        self.levels = levels;
    }
}
