//! Which rows the scans hand out, as laws over the definitions that `open_scan` names: nothing to run.

ghost use Rattle.std.specs.Prelude.{◌≡◌, ◌≤◌, Bool, Some, List, All, filter, length};
ghost use Rattle.std.specs.List.Sorted.{IsPermutation};
ghost use Rattle.rx_value.specs.declared.values.Value.{Value};
ghost use Rattle.rx_value.specs.declared.shapes.Part.{Part};
ghost use Rattle.rx_tree.specs.Tree.{Tree};
ghost use Rattle.rx_tree.specs.Canonical.{IsCanonical};
ghost use Rattle.rx_cover.specs.Cover.{cover};
ghost use Rattle.rx_index.specs.declared.indexed.Indexed.{Indexed as indexed};
ghost use Rattle.rx_index.specs.Entries.{parts_at};
ghost use Rattle.rx_store.specs.Tables.{Meaning as meaning, IsMeaning, rows_in};
ghost use Rattle.rx_cost.specs.declared.candidates.Candidate.{Candidate as candidate_record};
ghost use Rattle.rx_cost.specs.declared.candidates.Kind.TheVariants.{Table, Index, Range};
ghost use Rattle.rx_scan.specs.Handing.{IsRangeOf, IsScan};
ghost use Rattle.rx_scan.specs.Visits.{index_of, ranges_of, visited};
ghost use Rattle.rx_scan.specs.Runs.{Run as run_record, IsOpened, HandsOutAll, HandsOutVisited};
ghost use Rattle.rx_scan.specs.Laws.{rows_seen, rows_in_ranges, is_by_entries, SuitsScan, SuitsTest};

/// A table scan hands out all rows, by id. An index scan hands out each row once, as a query sees it that names the parts of
/// the index alone. A range scan hands out each row once whose key is in one of its ranges, and no other: as such a query sees
/// it where entries are all that is read. No part has a prefix length where entries are all that is read, and the rows stand by
/// the primary key where ranges of that are read.
pub fn scans_hand_out_each_row_once()
    ensures table { (c : candidate_record) (table : meaning) → c.kind ≡ Table → visited c table ≡ rows_in table }
    ensures index { (c : candidate_record) (table : meaning) (t : indexed) → IsMeaning table → table.told ≡ Some t → IsScan table.schema c → SuitsScan table.schema c t
        → c.kind ≡ Index → IsPermutation (rows_seen (is_by_entries table.schema c) (parts_at t (index_of c)) t.rows) (visited c table) }
    ensures range { (c : candidate_record) (table : meaning) (t : indexed) → IsMeaning table → table.told ≡ Some t → IsScan table.schema c → SuitsScan table.schema c t
        → c.kind ≡ Range → IsPermutation (rows_seen (is_by_entries table.schema c) (parts_at t (index_of c)) (rows_in_ranges (parts_at t (index_of c)) (ranges_of c) t.rows)) (visited c table) }
{}

/// No row that a condition accepts is lost by a scan, and none is handed out twice: where each row that passes a test is in one
/// of the ranges that are read, and the test looks at parts of the index alone where entries are all that is read, the rows that
/// are handed out and pass are, as such a query sees them, a rearrangement of the rows that pass.
pub fn scans_lose_no_row()
    ensures { (c : candidate_record) (table : meaning) (t : indexed) (test : List Value → Bool) → IsMeaning table → table.told ≡ Some t → IsScan table.schema c → SuitsScan table.schema c t
        → SuitsTest table.schema c t test → IsPermutation (rows_seen (is_by_entries table.schema c) (parts_at t (index_of c)) (filter test t.rows)) (filter test (visited c table)) }
{}

/// A run from its opening to its end hands out exactly the rows that its candidate visits, in their order, and reads in all,
/// the seeks that open it included, exactly what the candidate reads.
pub fn runs_hand_out_what_is_visited()
    ensures { (c : candidate_record) (table : meaning) (run : run_record) (rows : List (List Value)) → IsOpened table c run → HandsOutAll table run rows → HandsOutVisited table c run rows }
{}

/// The ranges of the cover of a canonical tree, over the first parts of an index, are ranges of that index: each names no more
/// parts than there are, and its span is one.
pub fn covers_are_ranges()
    ensures { (parts : List Part) (nullable falling : List Bool) (t : Tree) → length nullable ≤ length parts → IsCanonical nullable t → All (IsRangeOf parts) (cover nullable falling t) }
{}
