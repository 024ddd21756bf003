//! What holds of intersections and unions, as laws: nothing to run.

ghost use Rattle.std.specs.Prelude.{◌≡◌, ℕ, Bool, true, List, Some, All};
ghost use Rattle.std.specs.List.{list_any};
ghost use Rattle.rx_value.specs.declared.ranges.KeyRange.{KeyRange as range_record};
ghost use Rattle.rx_value.specs.declared.shapes.Schema.{Schema as schema_record};
ghost use Rattle.rx_cond.specs.Tree.{Tree};
ghost use Rattle.rx_query.specs.declared.settings.Settings.{Settings as settings_record};
ghost use Rattle.rx_cost.specs.declared.candidates.Scan.{Scan as scan_record};
ghost use Rattle.rx_cost.specs.declared.candidates.Candidate.{Candidate as candidate_record};
ghost use Rattle.rx_plan.specs.Plan.{LosesNoRow, KeepsRows};
ghost use Rattle.rx_merges.specs.Intersections.{intersections_among};
ghost use Rattle.rx_merges.specs.Unions.{union_of};
ghost use Rattle.rx_merges.specs.Rules.{AreOfCondition, IsIntersection, AreNumbered, all_meet, DoesMeet};

/// Each intersection has scans that give row ids in rising order, at least one, and a filter of the primary key at most. It loses
/// no row where the scans of the condition lose none.
pub fn intersections_keep_rules()
    ensures rules { (entries : Bool) (columns : List ℕ) (schema : schema_record) (count : ℕ) (scans : List scan_record) → AreOfCondition schema scans → All (IsIntersection schema) (intersections_among entries columns schema count scans) }
    ensures keep { (t : Tree) (entries : Bool) (columns : List ℕ) (schema : schema_record) (count : ℕ) (scans : List scan_record) → All (LosesNoRow schema t) scans → All (KeepsRows schema t) (intersections_among entries columns schema count scans) }
{}

/// A union loses no row: where the scans of some disjunct all hold the key of a row, or meet any such test, so do those of some
/// member of the union, which has at least one.
pub fn unions_lose_no_row()
    ensures { (test : ℕ → List range_record → Bool) (settings : settings_record) (schema : schema_record) (count : ℕ) (lists : List (List scan_record)) (candidate : candidate_record) → union_of settings schema count lists ≡ Some candidate → AreNumbered 1 lists → list_any (all_meet test) lists ≡ true → (member : ℕ) × DoesMeet test candidate.scans member }
{}
