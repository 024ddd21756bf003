//! What holds of the list of all candidates, as laws: nothing to run.

ghost use Rattle.std.specs.Prelude.{◌≡◌, List, All};
ghost use Rattle.rx_query.specs.Steps.{Question};
ghost use Rattle.rx_query.specs.declared.settings.Settings.{Settings as settings_record};
ghost use Rattle.rx_index.specs.declared.indexed.Indexed.{Indexed};
ghost use Rattle.rx_store.specs.Tables.{Meaning as meaning};
ghost use Rattle.rx_cost.specs.declared.candidates.Candidate.{Candidate};
ghost use Rattle.rx_plan.specs.Known.{Known, AreKnown};
ghost use Rattle.rx_candidates.specs.Candidates.{candidates, chosen, IsChosen};
ghost use Rattle.rx_candidates.specs.Kinds.{IsOfItsKind};

/// The candidate that runs is the first of least cost among all, and no other is.
pub fn first_of_least_cost_is_chosen()
    ensures there { (settings : settings_record) (q : Question) (table : meaning) (t : Indexed) (known : List Known) → IsChosen (candidates settings q table t known) (chosen settings q table t known) }
    ensures one { (all : List Candidate) (a b : Candidate) → IsChosen all a → IsChosen all b → a ≡ b }
{}

/// Each candidate is what its kind says: the table scan, the covering scan of an index that has all columns that the query
/// names, or the scan of ranges that lose no row.
pub fn candidates_are_of_their_kinds()
    ensures { (settings : settings_record) (q : Question) (table : meaning) (t : Indexed) (known : List Known) → AreKnown settings q table.schema known → All (IsOfItsKind settings q table t) (candidates settings q table t known) }
{}
