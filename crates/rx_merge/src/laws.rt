//! Which rows merges hand out, as laws over the definitions that `open_merge` names: nothing to run.

ghost use Rattle.std.specs.Prelude.{◌≡◌, ◌<◌, ℕ, Bool, true, Some, List, All, IfSome, filter, length};
ghost use Rattle.std.specs.List.Sorted.{IsStrictlyIncreasing};
ghost use Rattle.rx_value.specs.declared.values.Value.{Value};
ghost use Rattle.rx_index.specs.declared.indexed.Indexed.{Indexed as indexed};
ghost use Rattle.rx_store.specs.Tables.{Meaning as meaning, IsMeaning};
ghost use Rattle.rx_cost.specs.declared.candidates.Candidate.{Candidate as candidate_record};
ghost use Rattle.rx_merge.specs.Merged.{IsMerge, merged_ids};
ghost use Rattle.rx_merge.specs.Runs.{Merging as merging, IsOpened, HandsOutAll};
ghost use Rattle.rx_merge.specs.Laws.{is_in_member, merged_rows, AreByIdWhereRead};

/// The ids that a merge hands out are those of rows, and rise.
pub fn merged_ids_rise()
    ensures within { (c : candidate_record) (t : indexed) → All (λ id. id < length t.rows) (merged_ids c t) }
    ensures rising { (c : candidate_record) (t : indexed) → IsStrictlyIncreasing (merged_ids c t) }
{}

/// A merge hands out the ids of exactly the rows whose keys are in ranges of all scans of one of its members, each once, by id.
/// The rows stand by the primary key where a scan is of it.
pub fn merges_hand_out_each_row_once()
    ensures { (c : candidate_record) (table : meaning) (t : indexed) → IsMeaning table → table.told ≡ Some t
        → IsMerge table.schema c → AreByIdWhereRead c t
        → merged_rows c t ≡ filter (is_in_member t c.scans) t.rows }
{}

/// No row that a condition accepts is lost by a merge, and none is handed out twice: where the keys of each row that passes a
/// test are in ranges of all scans of one of the members, the rows with the ids that are handed out which pass are, in that
/// order, the rows by id that pass.
pub fn merges_lose_no_row()
    ensures { (c : candidate_record) (table : meaning) (t : indexed) (test : List Value → Bool) → IsMeaning table → table.told ≡ Some t
        → IsMerge table.schema c → AreByIdWhereRead c t
        → All (λ row. test row ≡ true → is_in_member t c.scans row ≡ true) t.rows
        → filter test (merged_rows c t) ≡ filter test t.rows }
{}

/// A run from its opening to its end hands out exactly the ids that its candidate merges, in their order.
pub fn runs_hand_out_what_is_merged()
    ensures { (c : candidate_record) (table : meaning) (run : merging) (ids : List ℕ) → IsOpened table c run → HandsOutAll run ids
        → IfSome table.told (λ t. ids ≡ merged_ids c t) }
{}
