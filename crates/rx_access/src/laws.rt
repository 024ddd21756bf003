//! What holds of all candidates of a question when they are run, as laws: nothing to run.

ghost use Rattle.std.specs.Prelude.{◌≡◌, true, Some, List, All};
ghost use Rattle.rx_query.specs.Grouping.{grouped};
ghost use Rattle.rx_query.specs.Steps.{Question};
ghost use Rattle.rx_query.specs.declared.settings.Settings.{Settings as settings_record};
ghost use Rattle.rx_index.specs.declared.indexed.Indexed.{Indexed};
ghost use Rattle.rx_store.specs.Tables.{Meaning as meaning, IsMeaning};
ghost use Rattle.rx_plan.specs.Known.{Known, AreKnown};
ghost use Rattle.rx_candidates.specs.Candidates.{candidates, chosen};
ghost use Rattle.rx_scan.specs.Handing.{IsScan};
ghost use Rattle.rx_scan.specs.Laws.{AreById};
ghost use Rattle.rx_access.specs.Access.{ComparesWhereCut, IsAnswerOf};

/// Every candidate that the plan defines is one that a scan can run: a table scan, an index scan or a range scan whose index is
/// there and whose ranges are ranges of that index, rise and are disjoint.
pub fn candidates_can_run()
    ensures { (settings : settings_record) (q : Question) (table : meaning) (t : Indexed) (known : List Known) → AreKnown settings q table.schema known → All (IsScan table.schema) (candidates settings q table t known) }
{}

/// Whichever candidate is run, the rows that it visits answer the question: they give the output rows that all rows of the table
/// give, each as often, in some order. So does the one that is chosen. It is asked that no column of the question stands for many
/// rows at once, that the rows stand by the primary key where there is one, and that the texts which the condition compares by an
/// operator are UTF-8 where a part of an index has a prefix length.
pub fn candidates_answer()
    ensures each { (settings : settings_record) (q : Question) (table : meaning) (t : Indexed) (known : List Known) → IsMeaning table → table.told ≡ Some t → AreKnown settings q table.schema known
        → grouped q ≡ true → ComparesWhereCut table.schema q.cond → AreById t → All (IsAnswerOf q table t) (candidates settings q table t known) }
    ensures chosen { (settings : settings_record) (q : Question) (table : meaning) (t : Indexed) (known : List Known) → IsMeaning table → table.told ≡ Some t → AreKnown settings q table.schema known
        → grouped q ≡ true → ComparesWhereCut table.schema q.cond → AreById t → IsAnswerOf q table t (chosen settings q table t known) }
{}
