ghost use Rattle.std.specs.Prelude.{◌≡◌, None, IfOk, IfErr, OnOk, map};
ghost use Rattle.rx_store.specs.Tables.{Keeps, WhereTold};
ghost use Rattle.rx_query.specs.Steps.{step_of};
ghost use Rattle.rx_query.specs.Settings.{default_settings, settings_after};
ghost use Rattle.rx_engine.specs.Seen.{sink_seen};
ghost use Rattle.rx_tool.specs.Blocks.{blocks_of, blocks_of_step, counts_after, counts_after_request};
ghost use Rattle.rx_engine.specs.Running.{Puts, Stops};
ghost use Rattle.rx_engine.specs.Select.{table_fault};

use rx_engine::{SelectFault, select};
use rx_outside::Sink;
use rx_query::{Numbered, Script, Settings, Statement, apply};
use rx_store::Table;
use std::alloc::Global;

/// Runs the statements of a script over a table, in order, and puts their blocks.
pub(crate) fn run_script<T: Table, O: Sink>(
    alloc: Global,
    script: &Script,
    table: &mut T,
    out: &mut O,
) -> Result<(), SelectFault>
    ensures puts { OnOk result (Puts (T.means table.old) (blocks_of (map step_of script.now) (T.means table.old))
        (sink_seen O.text O.faults O.room out.old) (sink_seen O.text O.faults O.room out.new)) }
    ensures stopped { IfErr result (Stops (T.means table.old) (blocks_of (map step_of script.now) (T.means table.old))
        (sink_seen O.text O.faults O.room out.old) (sink_seen O.text O.faults O.room out.new)) }
    ensures counts { OnOk result (WhereTold (T.means table.old)
        ((T.tally table.new).counts ≡ counts_after default_settings (map step_of script.now) (T.means table.old) (T.tally table.old).counts)) }
    ensures keeps { OnOk result (Keeps T.means T.tally T.kept T.spent None table.old table.new) }
    ensures cause { IfErr result (λ f. Keeps T.means T.tally T.kept T.spent (table_fault f) table.old table.new) }
{
    let mut settings = Settings::new();
    for numbered in script.as_slice() {
        settings = match run_statement(alloc, settings, numbered, table, out) {
            Ok(settings) => settings,
            Err(fault) => return Err(fault),
        };
    }
    Ok(())
}

// Runs one statement under the settings, and answers the settings after it.
#[tactic(auto, using(crate::proofs::Blocks::puts_nothing, crate::proofs::Blocks::counts_same))]
fn run_statement<T: Table, O: Sink>(
    alloc: Global,
    settings: Settings,
    numbered: &Numbered,
    table: &mut T,
    out: &mut O,
) -> Result<Settings, SelectFault>
    ensures settings { IfOk result (λ s. s ≡ settings_after settings (step_of numbered.now)) }
    ensures puts { OnOk result (Puts (T.means table.old) (blocks_of_step settings (step_of numbered.now) (T.means table.old))
        (sink_seen O.text O.faults O.room out.old) (sink_seen O.text O.faults O.room out.new)) }
    ensures stopped { IfErr result (Stops (T.means table.old) (blocks_of_step settings (step_of numbered.now) (T.means table.old))
        (sink_seen O.text O.faults O.room out.old) (sink_seen O.text O.faults O.room out.new)) }
    ensures counts { OnOk result (WhereTold (T.means table.old)
        ((T.tally table.new).counts ≡ counts_after_request settings (step_of numbered.now).request (T.means table.old) (T.tally table.old).counts)) }
    ensures keeps { OnOk result (Keeps T.means T.tally T.kept T.spent None table.old table.new) }
    ensures cause { IfErr result (λ f. Keeps T.means T.tally T.kept T.spent (table_fault f) table.old table.new) }
{
    match &numbered.statement {
        Statement::Query(query) => match select(
            alloc,
            numbered.number,
            query,
            settings,
            table,
            out,
        ) {
            Ok(_) => Ok(settings),
            Err(fault) => Err(fault),
        },
        Statement::Change(change) => Ok(apply(&settings, change)),
    }
}
