ghost use Rattle.std.specs.Prelude.{◌≡◌, IfOk, IfErr, OnOk, map, string_bytes};
ghost use Rattle.rx_outside.specs.Files.{KeepsFiles};
ghost use Rattle.rx_store.specs.Stored.{IsStorable};
ghost use Rattle.rx_inputs.specs.Faults.{held};
ghost use Rattle.rx_inputs.specs.Files.{held_by};
ghost use Rattle.rx_words.specs.Words.{files_of, task_of};
ghost use Rattle.rx_tool.specs.Blocks.{blocks_of};
ghost use Rattle.rx_engine.specs.Running.{Puts};
ghost use Rattle.rx_engine.specs.Seen.{sink_seen};
ghost use Rattle.rx_tool.specs.Seen.{files_seen, outside};
ghost use Rattle.rx_tool.specs.Owes.{owed, select_owes, table_of, table_after};
ghost use Rattle.rx_tool.specs.Ending.{IsRun};
ghost use Rattle.rx_tool.specs.Work.{IsWork, StopsScript};
ghost use Rattle.rx_tool.specs.Headline.{BagsOf, PrintsBags};

use crate::scripts::run_script;
use crate::stops::{Status, Stop, tell};
use rx_engine::SelectFault;
use rx_inputs::{Inputs, read_inputs};
use rx_outside::{Files, Sink};
use rx_store::MemTable;
use rx_words::{Command, SelectWords, command_of};
use std::alloc::Global;

/// How a run ended, and what it hands back.
#[derive(Drop)]
pub struct Ran<F> {
    pub status: Status,
    /// The files object that the run was given.
    pub files: F,
    /// The table on which the statements ran, where they all did.
    pub first: Option<MemTable>,
    /// A second table: no command has one yet.
    pub second: Option<MemTable>,
}

/// Carries out the words that follow the program's name: reads files, puts text on `out` and the line of a
/// refusal or a failure on `err`.
pub fn run<F: Files, O: Sink, E: Sink>(
    alloc: Global,
    words: &[String],
    files: F,
    out: &mut O,
    err: &mut E,
) -> Ran<F>
    // The run of what these words owe over what the files tell.
    ensures run { IsRun (owed (map string_bytes words.now) (F.told files))
        (outside (files_seen F.told F.sure F.taken F.faults files) (sink_seen O.text O.faults O.room out.old) (sink_seen E.text E.faults E.room err.old))
        (outside (files_seen F.told F.sure F.taken F.faults result.files) (sink_seen O.text O.faults O.room out.new) (sink_seen E.text E.faults E.room err.new))
        result.status result.first result.second }

    // Where it is done, each SELECT of an accepted script printed, as a bag, the rows of filtering and grouping the whole table, in the order asked for.
    ensures bags { result.status ≡ Status.Done → PrintsBags (task_of (map string_bytes words.now)) (F.told files) }

    // Where it is done, `err` is as it was; and the files tell what they told.
    ensures quiet { result.status ≡ Status.Done → err.new ≡ err.old }
    ensures keeps { KeepsFiles F.told F.sure F.room files result.files }
{
    let mut files = files;
    match work(alloc, words, &mut files, out) {
        Ok(table) => Ran {
            status: Status::Done,
            files,
            first: Some(table),
            second: None,
        },
        Err(stop) => {
            let status = tell(&stop, err);
            Ran {
                status,
                files,
                first: None,
                second: None,
            }
        }
    }
}

// Carries out the command of the words, and answers the table on which it ran.
fn work<F: Files, O: Sink>(
    alloc: Global,
    words: &[String],
    files: &mut F,
    out: &mut O,
) -> Result<MemTable, Stop>
    ensures work { IsWork (owed (map string_bytes words.now) (F.told files.old))
        (files_seen F.told F.sure F.taken F.faults files.old) (files_seen F.told F.sure F.taken F.faults files.new)
        (sink_seen O.text O.faults O.room out.old) (sink_seen O.text O.faults O.room out.new) result }
    ensures bags { OnOk result (PrintsBags (task_of (map string_bytes words.now)) (F.told files.old)) }
    ensures keeps { KeepsFiles F.told F.sure F.room files.old files.new }
{
    match command_of(alloc, words) {
        Ok(Some(Command::Select(names))) => run_select(alloc, files, &names, out),
        Ok(None) => Err(Stop::Words),
        Err(_) => Err(Stop::NoMemory),
    }
}

// Reads the schema, the data, the statistics and the script, and runs the script over the table.
fn run_select<F: Files, O: Sink>(
    alloc: Global,
    files: &mut F,
    names: &SelectWords<'_>,
    out: &mut O,
) -> Result<MemTable, Stop>
    ensures work { IsWork (select_owes (F.told files.old) (files_of names.now))
        (files_seen F.told F.sure F.taken F.faults files.old) (files_seen F.told F.sure F.taken F.faults files.new)
        (sink_seen O.text O.faults O.room out.old) (sink_seen O.text O.faults O.room out.new) result }
    ensures bags { OnOk result (BagsOf (held_by (F.told files.old) (files_of names.now))) }
    ensures keeps { KeepsFiles F.told F.sure F.room files.old files.new }
{
    let read = match read_inputs(alloc, files, names) {
        Ok(read) => read,
        Err(fault) => return Err(Stop::of(fault)),
    };
    run_inputs(alloc, read, out)
}

// Runs the script of the inputs over their table.
#[tactic(auto, using(crate::proofs::Owed::puts_held, crate::proofs::Owed::writing_held, crate::proofs::Owed::between_held))]
fn run_inputs<O: Sink>(alloc: Global, read: Inputs, out: &mut O) -> Result<MemTable, Stop>
    requires { IsStorable read.table read.statistics }
    ensures puts { OnOk result (Puts (table_of (held read)) (blocks_of (held read).steps (table_of (held read)))
        (sink_seen O.text O.faults O.room out.old) (sink_seen O.text O.faults O.room out.new)) }
    ensures table { IfOk result (λ table. table ≡ table_after (held read)) }
    ensures stopped { IfErr result (StopsScript (held read)
        (sink_seen O.text O.faults O.room out.old) (sink_seen O.text O.faults O.room out.new)) }
{
    let Inputs {
        table,
        statistics,
        script,
    } = read;
    let mut table = MemTable::new(table, statistics);
    match run_script(alloc, &script, &mut table, out) {
        Ok(()) => Ok(table),
        Err(SelectFault::WriteFault) => Err(Stop::WriteFault),
        Err(SelectFault::NoMemory) => Err(Stop::NoMemory),
        Err(SelectFault::ReadFault | SelectFault::Damaged { at: _ }) => unreachable!(),
    }
}
