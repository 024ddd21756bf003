ghost use Rattle.std.specs.Prelude.{◌≡◌, ◌<◌, ◌≤◌, Bool, true, List, length, map, max};
ghost use Rattle.std.specs.List.{list_any};
ghost use Rattle.rx_value.specs.declared.values.Value.{Value};
ghost use Rattle.rx_value.specs.Order.{below};
ghost use Rattle.rx_value.specs.Keys.{holds as range_holds};
ghost use Rattle.rx_tree.specs.Tree.{Tree, size};
ghost use Rattle.rx_tree.specs.Member.{IsTuple, holds};
ghost use Rattle.rx_tree.specs.Canonical.{IsCanonical};
ghost use Rattle.rx_cover.specs.Cover.{are_rising, cover};

/// The ranges of the cover of a canonical tree rise and are disjoint: each is before the next, by
/// the parts that fall and those that rise.
pub fn covers_rise()
    ensures { (parts falling : List Bool) (t : Tree) → length falling ≡ length parts → IsCanonical parts t → are_rising falling (cover parts falling t) ≡ true }
{}

/// No key of a tree is lost: where a canonical tree holds the tuple of the positions of a key's
/// values, a range of its cover holds the key.
pub fn covers_lose_no_key()
    ensures { (parts falling : List Bool) (t : Tree) (key : List Value) → 0 < length parts → length falling ≡ length parts → IsCanonical parts t → IsTuple parts (map below key) → holds t (map below key) ≡ true → list_any (λ r. range_holds r key) (cover parts falling t) ≡ true }
{}

/// The cover of a tree has at most as many ranges as the tree has items, those of a child counted
/// again at each item that leads to it, or one where there are none.
pub fn covers_are_few()
    ensures { (parts falling : List Bool) (t : Tree) → length (cover parts falling t) ≤ max 1 (size t) }
{}
