//! What the README says of every SELECT, as laws over the definitions that `select` names: nothing to run.

ghost use Rattle.std.specs.Prelude.{◌≡◌, ℕ, true, Some, All};
ghost use Rattle.rx_value.specs.declared.shapes.Schema.{Schema as schema_record};
ghost use Rattle.rx_index.specs.declared.indexed.Indexed.{Indexed};
ghost use Rattle.rx_store.specs.Tables.{Meaning as meaning, IsMeaning};
ghost use Rattle.rx_query.specs.Grouping.{grouped};
ghost use Rattle.rx_query.specs.Steps.{Question};
ghost use Rattle.rx_query.specs.declared.settings.Settings.{Settings as settings_record};
ghost use Rattle.rx_plan.specs.Known.{AreKnown, known_of};
ghost use Rattle.rx_candidates.specs.Candidates.{IsChosen};
ghost use Rattle.rx_scan.specs.Laws.{AreById};
ghost use Rattle.rx_access.specs.Access.{ComparesWhereCut};
ghost use Rattle.rx_engine.specs.Candidates.{candidates_of, chosen_of};
ghost use Rattle.rx_engine.specs.Headline.{RangesKeepRows, IsBagBlock};

/// What the plan goes by is what is known of all indexes: of each that a hint leaves, the answer of the condition.
pub fn indexes_are_known()
    ensures { (settings : settings_record) (q : Question) (schema : schema_record) → AreKnown settings q schema (known_of settings q schema) }
{}

/// The candidate that runs is the first of least cost among the defined ones.
#[tactic(auto, using(crate::proofs::Headline::first_is_chosen))]
pub fn first_of_least_cost_is_chosen()
    ensures { (settings : settings_record) (q : Question) (table : meaning) (t : Indexed) → IsChosen (candidates_of settings q table t) (chosen_of settings q table t) }
{}

/// The ranges of each range scan rise, are disjoint, and lose no row that WHERE accepts. If a part has a prefix length, the
/// texts that WHERE compares by an operator have to be UTF-8.
pub fn ranges_lose_no_row()
    ensures { (settings : settings_record) (q : Question) (table : meaning) (t : Indexed) → All (RangesKeepRows table.schema q.cond) (candidates_of settings q table t) }
{}

/// Whatever candidate runs, each SELECT prints, as a bag, the rows of filtering and grouping the whole table, in the order that
/// is asked for, and its trace behind them. It is asked that no column of the question stands for many rows at once, that the
/// rows stand by the primary key where there is one, and that the texts which WHERE compares by an operator are UTF-8 where a
/// part of an index has a prefix length.
#[tactic(auto, using(crate::proofs::Headline::blocks_are_bags))]
pub fn answers_are_bags()
    ensures { (settings : settings_record) (number : ℕ) (q : Question) (table : meaning) (t : Indexed) → IsMeaning table → table.told ≡ Some t
        → grouped q ≡ true → ComparesWhereCut table.schema q.cond → AreById t → IsBagBlock settings number q table t }
{}
