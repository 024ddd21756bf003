ghost use Rattle.std.specs.Prelude.{◌≡◌, ◌==◌, ◌+◌, ◌&&◌, ◌||◌, ℕ, Bool, true, false, List, [], ◌∷◌, length};
ghost use Rattle.rx_value.specs.declared.order.End.{End};
ghost use Rattle.rx_value.specs.declared.order.Span.{Span};
ghost use Rattle.rx_tree.specs.Tree.{Tree, size, constrains};
ghost use Rattle.rx_tree.specs.Tree.Tree.{everything, nothing};
ghost use Rattle.rx_tree.specs.Member.{IsTuple, HoldSame, holds};
ghost use Rattle.rx_tree.specs.Canonical.{IsCanonical};
ghost use Rattle.rx_tree.specs.Meet.{tree_and};
ghost use Rattle.rx_tree.specs.Union.{tree_or};
ghost use Rattle.rx_tree.specs.Points.{AreSpansAt, is_inside_at, is_whole_at, point_tree};

/// Two canonical trees over the same parts that hold the same tuples are equal.
pub fn trees_are_unique()
    ensures { (parts : List Bool) (t u : Tree) → IsCanonical parts t → IsCanonical parts u → HoldSame parts t u → t ≡ u }
{}

/// The tree of rising spans of one part that don't touch is canonical and holds exactly the tuples
/// whose position at that part is in one of them. Spans that hold every position give everything,
/// and no span gives nothing; the tree of any others has a whole item for each part before that one
/// and an item for each span, and constrains that part alone.
pub fn point_sets_have_trees()
    ensures canonical { (parts : List Bool) (k : ℕ) (spans : List Span) → AreSpansAt parts k spans → IsCanonical parts (point_tree parts k spans) }
    ensures holds { (parts : List Bool) (k : ℕ) (spans : List Span) (ps : List End) → AreSpansAt parts k spans → IsTuple parts ps → holds (point_tree parts k spans) ps ≡ is_inside_at k spans ps }
    ensures all { (parts : List Bool) (k : ℕ) (spans : List Span) → AreSpansAt parts k spans → ((ps : List End) → IsTuple parts ps → is_inside_at k spans ps ≡ true) → point_tree parts k spans ≡ everything }
    ensures none { (parts : List Bool) (k : ℕ) → point_tree parts k [] ≡ nothing }
    ensures size { (parts : List Bool) (k : ℕ) (s : Span) (rest : List Span) → AreSpansAt parts k (s ∷ rest) → is_whole_at parts k (s ∷ rest) ≡ false → size (point_tree parts k (s ∷ rest)) ≡ k + length (s ∷ rest) }
    ensures constrained { (parts : List Bool) (k j : ℕ) (s : Span) (rest : List Span) → AreSpansAt parts k (s ∷ rest) → is_whole_at parts k (s ∷ rest) ≡ false → constrains parts (point_tree parts k (s ∷ rest)) j ≡ (j == k) }
{}

/// What two canonical trees over the same parts have in common, put together item by item, is
/// canonical and holds exactly the tuples that both hold.
pub fn trees_meet()
    ensures canonical { (parts : List Bool) (t u : Tree) → IsCanonical parts t → IsCanonical parts u → IsCanonical parts (tree_and t u) }
    ensures holds { (parts : List Bool) (t u : Tree) (ps : List End) → IsCanonical parts t → IsCanonical parts u → holds (tree_and t u) ps ≡ (holds t ps && holds u ps) }
{}

/// The items of one canonical tree laid over those of another over the same parts give a tree that
/// is canonical and holds exactly the tuples that one of them holds.
pub fn trees_unite()
    ensures canonical { (parts : List Bool) (t u : Tree) → IsCanonical parts t → IsCanonical parts u → IsCanonical parts (tree_or parts t u) }
    ensures holds { (parts : List Bool) (t u : Tree) (ps : List End) → IsCanonical parts t → IsCanonical parts u → IsTuple parts ps → holds (tree_or parts t u) ps ≡ (holds t ps || holds u ps) }
{}
