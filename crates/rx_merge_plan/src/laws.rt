//! What holds of the definitions of intersections and unions, as laws: nothing to run.

ghost use Rattle.std.specs.Prelude.{◌++◌, All};
ghost use Rattle.rx_query.specs.Steps.{Question};
ghost use Rattle.rx_query.specs.declared.settings.Settings.{Settings as settings_record};
ghost use Rattle.rx_index.specs.declared.indexed.Indexed.{Indexed};
ghost use Rattle.rx_store.specs.Tables.{Meaning as meaning, IsMeaning};
ghost use Rattle.rx_merges.specs.Rules.{IsIntersection};
ghost use Rattle.rx_plan.specs.Known.{known_by};
ghost use Rattle.rx_merge_plan.specs.Merges.{intersections, unions, CanMerge};

/// Each of the defined intersections and unions of a question can be run, and each of the intersections keeps the rules.
pub fn defined_merges_can_run()
    ensures can_run { (settings : settings_record) (q : Question) (table : meaning) (t : Indexed) → IsMeaning table
        → All (CanMerge table.schema) (intersections settings q table t (known_by settings q table.schema q.cond) ++ unions settings q table t) }
    ensures rules { (settings : settings_record) (q : Question) (table : meaning) (t : Indexed) → IsMeaning table
        → All (IsIntersection table.schema) (intersections settings q table t (known_by settings q table.schema q.cond)) }
{}
