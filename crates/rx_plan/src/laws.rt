//! What holds of the definitions that the plan names, as laws: nothing to run.

ghost use Rattle.std.specs.Prelude.{◌≡◌, List, All};
ghost use Rattle.rx_value.specs.declared.shapes.Schema.{Schema};
ghost use Rattle.rx_query.specs.Steps.{Question};
ghost use Rattle.rx_query.specs.declared.settings.Settings.{Settings as settings_record};
ghost use Rattle.rx_index.specs.declared.indexed.Indexed.{Indexed};
ghost use Rattle.rx_store.specs.Tables.{Meaning as meaning};
ghost use Rattle.rx_plan.specs.Known.{Known, AreKnown, known_of};
ghost use Rattle.rx_plan.specs.Candidates.{covering_scans, range_scans};
ghost use Rattle.rx_plan.specs.Kinds.{IsCoveringScan, IsScanOfRanges};

/// What is known of the indexes of a table is there for each query and all settings, and is one list.
pub fn indexes_are_known_once()
    ensures there { (settings : settings_record) (q : Question) (schema : Schema) → (known : List Known) × AreKnown settings q schema known }
    ensures given { (settings : settings_record) (q : Question) (schema : Schema) → AreKnown settings q schema (known_of settings q schema) }
    ensures one { (settings : settings_record) (q : Question) (schema : Schema) (a b : List Known) → AreKnown settings q schema a → AreKnown settings q schema b → a ≡ b }
{}

/// Each covering scan is that of an index that has all columns that the query names, and each range scan is one of ranges that
/// lose no row.
pub fn scans_are_of_their_kinds()
    ensures covering { (q : Question) (table : meaning) → All (IsCoveringScan q table) (covering_scans q table) }
    ensures ranges { (settings : settings_record) (q : Question) (table : meaning) (t : Indexed) (known : List Known) → AreKnown settings q table.schema known → All (IsScanOfRanges settings q table t) (range_scans settings q table t known) }
{}
