ghost use Rattle.std.specs.Prelude.{◌≡◌, Bool, true, List, map};
ghost use Rattle.rx_value.specs.declared.values.Value.{Value};
ghost use Rattle.rx_value.specs.declared.order.End.{End};
ghost use Rattle.rx_value.specs.declared.shapes.Part.{Part};
ghost use Rattle.rx_value.specs.Order.{below};
ghost use Rattle.rx_value.specs.Keys.{key_of};
ghost use Rattle.rx_cond.specs.Tree.{Tree, truth_at};
ghost use Rattle.rx_regions.specs.Cans.{is_so, can_be};
ghost use Rattle.rx_regions.specs.Constants.{constants, AllAlike};
ghost use Rattle.rx_regions.specs.Texts.{AreUtf8, ComparesUtf8, cuts};

/// Where a condition is true at a row it can be true at the row's key on an index, and where it is
/// false it can be false there. If a part has a prefix length, the row's texts and those that the
/// condition compares by an operator have to be UTF-8.
pub fn truth_shows_at_the_key()
    ensures { (sign : Bool) (t : Tree) (parts : List Part) (row : List Value) → (cuts parts ≡ true → ComparesUtf8 t × AreUtf8 row) → is_so sign (truth_at t row) ≡ true → can_be sign t parts (map below (key_of parts row)) ≡ true }
{}

/// Where two tuples of positions stand alike to NULL and to a condition's constants, part by part,
/// the condition can be true at both or at neither, and false at both or at neither.
pub fn regions_decide()
    ensures { (sign : Bool) (t : Tree) (parts : List Part) (ps qs : List End) → AllAlike (constants t) parts ps qs → can_be sign t parts ps ≡ can_be sign t parts qs }
{}
