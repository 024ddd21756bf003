ghost use Rattle.std.specs.Prelude.{◌≡◌, ◌<◌, ℕ, Bool, List};
ghost use Rattle.rx_tree.specs.Tree.{Tree, size};
ghost use Rattle.rx_tree.specs.Meet.{tree_and};
ghost use Rattle.rx_tree.specs.Union.{tree_or};
ghost use Rattle.rx_sets.specs.Sets.{KeySet, AreSame, IsSmall, IsTreeOf, both, either};

/// A set has one canonical tree, which is that of any set of the same tuples; a set whose tree has more items than a
/// limit isn't small.
pub fn sets_have_one_tree()
    ensures one { (parts : List Bool) (f : KeySet) (t u : Tree) → IsTreeOf parts f t → IsTreeOf parts f u → t ≡ u }
    ensures same { (parts : List Bool) (f g : KeySet) (t : Tree) → AreSame parts f g → IsTreeOf parts f t → IsTreeOf parts g t }
    ensures small { (parts : List Bool) (limit : ℕ) (f : KeySet) (t : Tree) → IsTreeOf parts f t → limit < size t → IsSmall parts limit f → ⊥ }
{}

/// What the trees of two sets have in common is the tree of the tuples of both, and what they have
/// together that of the tuples of either.
pub fn trees_of_sets_meet_and_unite()
    ensures meet { (parts : List Bool) (f g : KeySet) (t u : Tree) → IsTreeOf parts f t → IsTreeOf parts g u → IsTreeOf parts (both f g) (tree_and t u) }
    ensures unite { (parts : List Bool) (f g : KeySet) (t u : Tree) → IsTreeOf parts f t → IsTreeOf parts g u → IsTreeOf parts (either f g) (tree_or parts t u) }
{}
