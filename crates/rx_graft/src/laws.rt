ghost use Rattle.std.specs.Prelude.{◌≡◌, ◌≤◌, Bool, List, length};
ghost use Rattle.rx_tree.specs.Tree.{Level};
ghost use Rattle.rx_tree.specs.Tree.Level.{end};
ghost use Rattle.rx_tree.specs.Canonical.{IsCanonicalLevel};
ghost use Rattle.rx_tree.specs.Meet.{both};
ghost use Rattle.rx_graft.specs.Graft.{ComesBefore, first_child, grafted};
ghost use Rattle.rx_graft.specs.Hang.{hung, depth_of, chain};

/// Where each part that one canonical level constrains comes before each that another constrains, what
/// both have in common has exactly the items of the first: none is lost, none is joined to its neighbour,
/// and below each goes on what its child and the level below the second's one item have in common.
#[tactic(auto, using(crate::proofs::Grafting::kept_items))]
pub fn earlier_parts_keep_their_items()
    ensures { (parts : List Bool) (g h : Level) → IsCanonicalLevel parts g → IsCanonicalLevel parts h → (g ≡ end → ⊥) → (h ≡ end → ⊥) → ComesBefore parts g h → both g h ≡ grafted (first_child h) g }
{}

/// Where one canonical level goes no further down than the whole items of another, what both have in
/// common is the first with the levels below those items hung below. So it is where each part that the
/// first constrains comes before each that the second constrains.
#[tactic(auto, using(crate::proofs::Chained::deep_hung, crate::proofs::Chained::before_deep))]
pub fn levels_meet_by_hanging()
    ensures meets { (parts : List Bool) (g h : Level) → IsCanonicalLevel parts g → IsCanonicalLevel parts h → (g ≡ end → ⊥) → (h ≡ end → ⊥) → depth_of g ≤ length (chain parts h) → both g h ≡ hung (chain parts h) g }
    ensures long_enough { (parts : List Bool) (g h : Level) → IsCanonicalLevel parts g → IsCanonicalLevel parts h → (g ≡ end → ⊥) → (h ≡ end → ⊥) → ComesBefore parts g h → depth_of g ≤ length (chain parts h) }
{}
