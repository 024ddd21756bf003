ghost use Rattle.std.specs.Prelude.{◌≡◌, ◌≤◌, ℕ, true, Bool, List, All, map, filter, length, IsPermutation};
ghost use Rattle.std.specs.List.{list_all, range_with_len};
ghost use Rattle.rx_value.specs.declared.values.Value.{Value as value};
ghost use Rattle.rx_cond.specs.Columns.{columns_of};
ghost use Rattle.rx_cond.specs.Tree.{Tree, truth_at};
ghost use Rattle.rx_query.specs.Grouping.{grouped};
ghost use Rattle.rx_query.specs.Steps.{Question};
ghost use Rattle.rx_rows.specs.Answer.{answer};
ghost use Rattle.rx_rows.specs.Finish.{answered};
ghost use Rattle.rx_named.specs.Agreement.{AgreeOn, AllAgreeOn, KeepsColumns, KeepsTrue, HasColumns, seen_at};
ghost use Rattle.rx_named.specs.Naming.{is_one_of, names};

/// Rows that have the same values at the columns of a condition give it the same truth.
#[tactic(auto, using(crate::proofs::Truths::truths_agree))]
pub fn truth_sees_named_columns()
    ensures { (t : Tree) (row other : List value) → AgreeOn (is_one_of (columns_of t)) row other → truth_at t row ≡ truth_at t other }
{}

/// Rows that have the same values, place by place, at the columns that a question names have the same answer, in the same
/// order, whatever groups, aggregates, DISTINCT and ORDER BY it has: so have rows of which a scan sees these columns alone,
/// with NULL in every other one.
#[tactic(auto, using(crate::proofs::Answers::answered_same, crate::proofs::Answers::answer_same, crate::proofs::Answers::answered_seen, crate::proofs::Answers::answered_named))]
pub fn answers_see_named_columns()
    ensures all { (q : Question) (rows others : List (List value)) → AllAgreeOn (names q) rows others → answered q rows ≡ answered q others }
    ensures plain { (q : Question) (rows others : List (List value)) → AllAgreeOn (names q) rows others → answer q rows ≡ answer q others }
    ensures seen { (q : Question) (seen : List value → List value) (rows : List (List value)) → KeepsColumns (names q) seen rows → answered q (map seen rows) ≡ answered q rows }
    ensures named { (q : Question) (rows : List (List value)) → answered q (map (seen_at (names q)) rows) ≡ answered q rows }
{}

/// Rows as a scan sees them, with NULL in each column that it doesn't see, keep the columns that it sees: each of some columns
/// is kept where it is seen of each row that has it, and so where it is seen whenever the table has it.
pub fn seen_rows_keep_columns()
    ensures each { (columns kept : ℕ → Bool) (rows : List (List value)) → All (HasColumns columns kept) rows → KeepsColumns columns (seen_at kept) rows }
    ensures listed { (columns kept : ℕ → Bool) (width : ℕ) (rows : List (List value)) → list_all kept (filter columns (range_with_len 0 width)) ≡ true → All (λ row. length row ≤ width) rows → KeepsColumns columns (seen_at kept) rows }
{}

/// A test that keeps each row at which WHERE is true leaves the answer as it is.
#[tactic(auto, using(crate::proofs::Answers::answered_kept))]
pub fn answers_see_true_rows()
    ensures { (q : Question) (test : List value → Bool) (rows : List (List value)) → KeepsTrue q.cond test rows → answered q (filter test rows) ≡ answered q rows }
{}

/// A scan that leaves out only rows at which WHERE isn't true, and sees of each other row the columns that a question names,
/// has the answer of all rows; where it visits them in another order, and no column of the question stands for many rows at
/// once, it has the same output rows in some order.
#[tactic(auto, using(crate::proofs::Answers::answered_visited, crate::proofs::Answers::visits_answer))]
pub fn visits_answer()
    ensures in_place { (q : Question) (test : List value → Bool) (seen : List value → List value) (rows : List (List value)) → KeepsTrue q.cond test rows → KeepsColumns (names q) seen rows → answered q (map seen (filter test rows)) ≡ answered q rows }
    ensures rearranged { (q : Question) → grouped q ≡ true → (test : List value → Bool) (seen : List value → List value) (rows visited : List (List value)) → KeepsTrue q.cond test rows → KeepsColumns (names q) seen rows → IsPermutation (map seen (filter test rows)) visited → IsPermutation (answered q rows) (answered q visited) }
{}
