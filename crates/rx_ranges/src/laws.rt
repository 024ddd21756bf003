ghost use Rattle.std.specs.Prelude.{◌≡◌, ℕ, Bool, true, List, length};
ghost use Rattle.std.specs.List.{list_any};
ghost use Rattle.rx_value.specs.declared.values.Value.{Value};
ghost use Rattle.rx_value.specs.declared.ranges.KeyRange.{KeyRange};
ghost use Rattle.rx_value.specs.declared.shapes.Column.{Column};
ghost use Rattle.rx_value.specs.declared.shapes.Part.{Part};
ghost use Rattle.rx_value.specs.declared.shapes.Schema.{Schema};
ghost use Rattle.rx_value.specs.Shape.{FitsRow};
ghost use Rattle.rx_value.specs.Keys.{key_of, holds};
ghost use Rattle.rx_tree.specs.Tree as trees;
ghost use Rattle.rx_cond.specs.declared.conds.Tri.TheVariants.{T};
ghost use Rattle.rx_cond.specs.Tree.{Tree, truth_at};
ghost use Rattle.rx_regions.specs.Cans.{can_be};
ghost use Rattle.rx_regions.specs.Texts.{ComparesUtf8, cuts};
ghost use Rattle.rx_cover.specs.Cover.{are_rising};
ghost use Rattle.rx_sets.specs.Sets.{IsTreeOf};
ghost use Rattle.rx_ranges.specs.Answers.{Answer, ranges, IsAnswer, fallings};

/// The ranges of a condition on an index rise and are disjoint, each before the next. No row is
/// lost: the key of each row that fits the schema and makes the condition true is in one of them.
/// If a part has a prefix length, the texts that the condition compares by an operator have to be
/// UTF-8.
pub fn ranges_lose_no_row()
    ensures rise { (columns : List Column) (parts : List Part) (limit : ℕ) (t : Tree) (p : ℕ) (list : List KeyRange) → IsAnswer columns parts limit t (ranges p list) → are_rising (fallings parts) list ≡ true }
    ensures keep { (schema : Schema) (parts : List Part) (limit : ℕ) (t : Tree) (p : ℕ) (list : List KeyRange) (row : List Value) → (cuts parts ≡ true → ComparesUtf8 t) → IsAnswer schema.columns parts limit t (ranges p list) → FitsRow schema row → truth_at t row ≡ T → list_any (λ r. holds r (key_of parts row)) list ≡ true }
{}

/// A condition has one answer on an index, under one limit of items.
pub fn answers_are_unique()
    ensures { (columns : List Column) (parts : List Part) (limit : ℕ) (t : Tree) (a b : Answer) → IsAnswer columns parts limit t a → IsAnswer columns parts limit t b → a ≡ b }
{}

/// Where a condition can be true on an index has a tree, and so has where it can be false, whatever
/// parts may be NULL.
pub fn conditions_have_trees()
    ensures { (sign : Bool) (t : Tree) (parts : List Part) (nullable : List Bool) → length nullable ≡ length parts → (tree : trees.Tree) × IsTreeOf nullable (can_be sign t parts) tree }
{}

/// A condition has an answer on every index, under every limit of items.
pub fn conditions_have_answers()
    ensures { (columns : List Column) (parts : List Part) (limit : ℕ) (t : Tree) → (answer : Answer) × IsAnswer columns parts limit t answer }
{}
