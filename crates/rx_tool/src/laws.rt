//! What the README says of every script, as a law over the definitions that `run` names: nothing to run.

ghost use Rattle.std.specs.Prelude.{◌≡◌, List};
ghost use Rattle.rx_store.specs.declared.tables.Counts.{Counts as counts_record};
ghost use Rattle.rx_store.specs.Tables.{Meaning as meaning, add_counts};
ghost use Rattle.rx_query.specs.Steps.{Step};
ghost use Rattle.rx_query.specs.declared.settings.Settings.{Settings as settings_record};
ghost use Rattle.rx_tool.specs.Blocks.{counts_after, reads_from, summed};

/// The counts of a table after a script are those before it and what the chosen candidates read, summed.
#[tactic(auto, using(crate::proofs::Sums::counts_are_sums))]
pub fn counts_are_sums()
    ensures { (settings : settings_record) (steps : List Step) (table : meaning) (counts : counts_record)
        → counts_after settings steps table counts ≡ add_counts (summed (reads_from settings steps table)) counts }
{}
