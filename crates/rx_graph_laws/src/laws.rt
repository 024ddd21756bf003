ghost use Rattle.std.specs.Prelude.{◌≡◌, ◌<◌, ℕ, Bool, List, [], ◌∷◌};
ghost use Rattle.rx_tree.specs.Tree.{Tree};
ghost use Rattle.rx_graph.specs.declared.handles.Root.{Root};
ghost use Rattle.rx_graph.specs.Graph.{Graph, IsHeld, handle_count, held_count, tree_in};
ghost use Rattle.rx_graph_laws.specs.Operations.{KeySet, Operation, played, set_at};
ghost use Rattle.rx_graph_laws.specs.Runs.{ArePlaces, Held, IsPlace, Runs, IsRootAt, no_handles, root_at, two_at};
ghost use Rattle.rx_graph_laws.specs.Matches.{IsTreeOf, Matches};

/// After any list of calls, refused ones among them, each held handle has the canonical tree of the set that
/// the same list gives on plain sets. The listed handles are all that there are, and that tree is the only
/// canonical one that holds exactly the tuples of the set. Where the handles of an arena have the trees of
/// sets already, they have those of the sets that the calls give from there, and what stands at one place or
/// at two is held as the calls require it.
pub fn handles_have_the_trees_of_sets()
    ensures matches { (g : Graph) (after : Held) (operations : List Operation) → handle_count g ≡ 0 → Runs operations (no_handles g) after → Matches g.nullable after (played operations []) }
    ensures canonical_tree { (g : Graph) (after : Held) (operations : List Operation) → handle_count g ≡ 0 → Runs operations (no_handles g) after → (k : ℕ) → IsPlace k after.roots → IsTreeOf g.nullable (tree_in after.graph (root_at k after.roots)) (set_at k (played operations [])) }
    ensures each_held { (g : Graph) (after : Held) (operations : List Operation) → handle_count g ≡ 0 → Runs operations (no_handles g) after → (r : Root) → 0 < held_count after.graph r → (k : ℕ) × IsRootAt k after.roots r × IsTreeOf g.nullable (tree_in after.graph r) (set_at k (played operations [])) }
    ensures goes_on { (parts : List Bool) (before after : Held) (sets : List KeySet) (operations : List Operation) → Matches parts before sets → Runs operations before after → Matches parts after (played operations sets) }
    ensures one_is_held { (parts : List Bool) (a : Held) (sets : List KeySet) → Matches parts a sets → (i : ℕ) → IsPlace i a.roots → IsHeld a.graph (root_at i a.roots ∷ []) }
    ensures two_are_held { (parts : List Bool) (a : Held) (sets : List KeySet) → Matches parts a sets → (i j : ℕ) → ArePlaces i j a.roots → IsHeld a.graph (two_at i j a.roots) }
    ensures only_one { (parts : List Bool) (t u : Tree) (f : KeySet) → IsTreeOf parts t f → IsTreeOf parts u f → t ≡ u }
{}
