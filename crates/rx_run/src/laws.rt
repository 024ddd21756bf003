//! Which rows candidates hand out, as laws over the definitions that `open_run` names: nothing to run.

ghost use Rattle.std.specs.Prelude.{◌≡◌, true, false, Some, List, map, All};
ghost use Rattle.rx_value.specs.declared.values.Value.{Value};
ghost use Rattle.rx_index.specs.declared.indexed.Indexed.{Indexed as indexed};
ghost use Rattle.rx_store.specs.Tables.{Meaning as meaning, IsMeaning};
ghost use Rattle.rx_cost.specs.declared.candidates.Candidate.{Candidate as candidate_record};
ghost use Rattle.rx_merge.specs.Laws.{merged_rows, AreByIdWhereRead};
ghost use Rattle.rx_merge.specs.Merged.{IsMerge};
ghost use Rattle.rx_run.specs.Visits.{is_merge, visited};
ghost use Rattle.rx_run.specs.Runs.{Run as run_record, IsOpened, HandsOutAll, HandsOutVisited};
ghost use Rattle.rx_run.specs.Laws.{IsShown, shown_row};

/// A run from its opening to its end hands out exactly the rows that its candidate visits, in their order, and reads in all what
/// the candidate reads.
pub fn runs_hand_out_what_is_visited()
    ensures { (c : candidate_record) (table : meaning) (run : run_record) (rows : List (List Value)) → IsOpened table c run → HandsOutAll table run rows → HandsOutVisited table c run rows }
{}

/// A merge that reads rows hands out those with the ids that it merges, by id.
pub fn merges_hand_out_rows_by_id()
    ensures { (c : candidate_record) (table : meaning) (t : indexed) → table.told ≡ Some t → is_merge c.kind ≡ true → c.index_only ≡ false → visited c table ≡ merged_rows c t }
{}

/// An intersection that reads no row hands out for each id that it merges the row with that id, with NULL in every column that
/// none of its scans shows.
pub fn entries_show_the_rows()
    ensures { (c : candidate_record) (table : meaning) (t : indexed) → IsMeaning table → table.told ≡ Some t → IsMerge table.schema c → IsShown table.schema c → AreByIdWhereRead c t
        → visited c table ≡ map (shown_row table.schema c.scans) (merged_rows c t) }
{}
