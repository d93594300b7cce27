//! Running a checked script, and printing its replies.
ghost use Rattle.std.specs.Prelude.{◌≡◌, ◌⊎◌, ◌↔◌, ◌+◌, ◌<◌, ◌≤◌, ℕ, List, [], ◌∷◌, ◌++◌, length, true, false, None, Err, OnOk, OnErr, IfOk};
ghost use Rattle.ids_base.specs.declared.plan.Plan.{Plan};
ghost use Rattle.ids_outside.specs.Counts.{Rose};
ghost use Rattle.ids_outside.specs.Images.{Image};
ghost use Rattle.ids_model.specs.Tables.{Tables};
ghost use Rattle.ids_model.specs.Text.{text, given_text};
ghost use Rattle.ids_model.specs.Matches.{Script};
ghost use Rattle.fast_recovery.specs.Images.{Recovers};
ghost use Rattle.ids_engine.specs.Survival.{Survives, tables_from};
ghost use Rattle.ids_engine.specs.OutOfBlocks.{IsOutOfBlocks};
ghost use Rattle.ids_engine.specs.Journals.{done_of};
ghost use Rattle.sql_reader.specs.Lines.{texts_of, statements_in, text_in};
ghost use Rattle.sql_reader.specs.Plans.{Each, IsPlanOf, IsScriptOf};
ghost use Rattle.ids_server.specs.Printing.{PrinterPuts};
ghost use Rattle.ids_server.specs.Moments.{HaveMoments};
ghost use Rattle.ids_server.specs.Running.{Steps, Fails};
ghost use Rattle.ids_server.specs.Runners.{running_of, KeepsRun, HasStore};
ghost use Rattle.ids_server.specs.Serving.{HasRun, is_of_session};

use crate::laws::{failures_end, runs_end, runs_start, steps_keep_running};
use crate::printer::Printer;
use crate::runner::Runner;
use crate::text::put_reply;
use ids_base::status::Status;
use ids_engine::StoreFault;
use ids_engine::store_laws::{kept_now, kept_survives};
use ids_model::journal::Given;
use ids_model::laws;
use ids_outside::{Disk, Sink};
use sql_reader::script::Checked;
use std::alloc::Global;

// Puts the text of the last reply.
fn put_last_text<K: Sink>(printer: &mut Printer<K>, given: &[Given])
    requires { 0 < length given.now }
    ensures { (before : List Given) (last : Given) → given.now ≡ before ++ last ∷ [] → PrinterPuts K.tells K.taken K.fault_count printer.old printer.new (given_text last) }
{
    let last = &given[given.len() - 1];
    put_reply(printer, last.session, last.number, &last.reply);
}

// Puts the text of the last reply, and writes it at once where that is asked for.
fn put_last<K: Sink>(printer: &mut Printer<K>, given: &[Given], at_once: bool)
    requires { 0 < length given.now }
    ensures { (before : List Given) (last : Given) → given.now ≡ before ++ last ∷ [] → PrinterPuts K.tells K.taken K.fault_count printer.old printer.new (given_text last) }
{
    put_last_text(printer, given);
    if at_once {
        printer.flush();
    }
}

// The status of a run that a fault ended.
fn status_of(fault: StoreFault) -> Status
    ensures own { is_of_session result ≡ true }
    ensures not_done { ¬ (result ≡ Status.Done) }
    ensures not_sink { ¬ (result ≡ Status.SinkFault) }
    ensures disk { result ≡ Status.DiskFault → fault ≡ StoreFault.Disk }
    ensures log_full { result ≡ Status.LogFull → fault ≡ StoreFault.LogFull }
{
    match fault {
        StoreFault::Disk => Status::DiskFault,
        StoreFault::Memory => Status::Memory,
        StoreFault::LogFull => Status::LogFull,
    }
}

// Runs one statement, and puts the text of its reply; what was brought to the disk is told at once. Where it fails, nothing is
// given or put.
fn run_one<D: Disk, K: Sink>(
    alloc: Global,
    script: &Checked,
    index: usize,
    disk: &mut D,
    runner: &mut Runner,
    printer: &mut Printer<K>,
) -> Result<(), StoreFault>
    requires index { index < length (statements_in script.now 0 0) }
    requires store { HasStore D.Disk runner.old disk.old }

    ensures stepped { OnOk result ((plan : Plan) × IsPlanOf (text_in script.now 0 0 index) plan × Steps (D.now disk.new) (running_of runner.old) plan (running_of runner.new)) }
    ensures printed { OnOk result ((last : Given) × (runner.new.given.items ≡ runner.old.given.items ++ last ∷ []) × PrinterPuts K.tells K.taken K.fault_count printer.old printer.new (given_text last)) }
    ensures store { OnOk result (HasStore D.Disk runner.new disk.new) }
    ensures kept { OnOk result ((since : ℕ) (base : Image) (found : Tables)
        → KeepsRun D.tells D.Disk since base found runner.old disk.old
        → KeepsRun D.tells D.Disk since base found runner.new disk.new) }
    ensures failed { OnErr result ((runner.new.journal.items ≡ runner.old.journal.items)
        ⊎ ((plan : Plan) × IsPlanOf (text_in script.now 0 0 index) plan × Fails (running_of runner.old) plan runner.new.journal.items)) }
    ensures given { OnErr result (runner.new.given.items ≡ runner.old.given.items) }
    ensures printer { OnErr result (printer.new ≡ printer.old) }
    ensures survives { OnErr result ((since : ℕ) (base : Image) (found : Tables)
        → KeepsRun D.tells D.Disk since base found runner.old disk.old
        → Survives D.now D.left_at since found (done_of runner.new.journal.items) disk.new) }
    ensures out_of_blocks { result ≡ Err StoreFault.LogFull → (since : ℕ) (base : Image) (found : Tables)
        → KeepsRun D.tells D.Disk since base found runner.old disk.old
        → IsOutOfBlocks D.tells D.Disk since base found (done_of runner.new.journal.items) runner.new.store disk.new }
    ensures later { D.now disk.old ≤ D.now disk.new }
    ensures counted { D.fault_count disk.old ≤ D.fault_count disk.new }
    ensures disk_fault { result ≡ Err StoreFault.Disk → Rose (D.fault_count disk.old) (D.fault_count disk.new) }
{
    kept_survives::<D>();
    let before = disk.moment();
    let plan = script.plan_at(alloc, 0, 0, index)?;
    runner.step(disk, plan)?;
    put_last(printer, runner.given(), disk.moment() != before);
    Ok(())
}

// Runs the statements of a script in order, until the sink or a statement fails; a transaction that is open at the end is taken
// back.
fn run_all<D: Disk, K: Sink>(
    alloc: Global,
    script: &Checked,
    disk: &mut D,
    runner: &mut Runner,
    printer: &mut Printer<K>,
) -> Status
    requires fresh { running_of runner.old ≡ record { tables = runner.old.store.tables; inside = None; journal = []; given = [] } }
    requires store { HasStore D.Disk runner.old disk.old }

    ensures ran { (plans : Script) (bytes : List ℕ) → script.now ≡ texts_of bytes → IsScriptOf bytes plans → HasRun plans runner.old.store.tables result runner.new.journal.items runner.new.given.items }
    ensures survives { (since : ℕ) (base : Image) (found : Tables)
        → KeepsRun D.tells D.Disk since base found runner.old disk.old
        → Survives D.now D.left_at since found (done_of runner.new.journal.items) disk.new }
    ensures out_of_blocks { result ≡ Status.LogFull → (since : ℕ) (base : Image) (found : Tables)
        → KeepsRun D.tells D.Disk since base found runner.old disk.old
        → IsOutOfBlocks D.tells D.Disk since base found (done_of runner.new.journal.items) runner.new.store disk.new }
    ensures at_end { result ≡ Status.Done → (since : ℕ) (base : Image) (found : Tables)
        → KeepsRun D.tells D.Disk since base found runner.old disk.old
        → (c : Image) → D.can_leave disk.new c → Recovers c (tables_from found (done_of runner.new.journal.items)) }
    ensures moments { HaveMoments (D.now disk.new) runner.new.journal.items }
    ensures printed { PrinterPuts K.tells K.taken K.fault_count printer.old printer.new (text runner.new.given.items) }
    ensures failed { result ≡ Status.SinkFault → printer.new.failed ≡ true }
    ensures own { is_of_session result ≡ true }
    ensures later { D.now disk.old ≤ D.now disk.new }
    ensures counted { D.fault_count disk.old ≤ D.fault_count disk.new }
    ensures disk_fault { result ≡ Status.DiskFault → Rose (D.fault_count disk.old) (D.fault_count disk.new) }
{
    steps_keep_running();
    failures_end();
    runs_end();
    runs_start();
    kept_survives::<D>();
    kept_now::<D>();
    laws::sessions_count();
    laws::all_answered();
    sql_reader::laws::a_statement_has_one_plan();
    for index in 0..script.statements(0, 0) {
        match run_one(alloc, script, index, disk, runner, printer) {
            Ok(()) => {}
            Err(fault) => return status_of(fault),
        }
        if printer.has_failed() {
            return Status::SinkFault;
        }
    }
    match runner.end(disk) {
        Ok(()) => Status::Done,
        Err(fault) => status_of(fault),
    }
}

/// Runs the statements of a script in order, until the sink or a statement fails, and writes the text of all replies. A
/// transaction that is open at the end is taken back.
pub(crate) fn run<D: Disk, K: Sink>(
    alloc: Global,
    script: &Checked,
    disk: &mut D,
    runner: &mut Runner,
    printer: &mut Printer<K>,
) -> Status
    requires fresh { running_of runner.old ≡ record { tables = runner.old.store.tables; inside = None; journal = []; given = [] } }
    requires store { HasStore D.Disk runner.old disk.old }

    ensures ran { (plans : Script) (bytes : List ℕ) → script.now ≡ texts_of bytes → IsScriptOf bytes plans → HasRun plans runner.old.store.tables result runner.new.journal.items runner.new.given.items }
    ensures survives { (since : ℕ) (base : Image) (found : Tables)
        → KeepsRun D.tells D.Disk since base found runner.old disk.old
        → Survives D.now D.left_at since found (done_of runner.new.journal.items) disk.new }
    ensures out_of_blocks { result ≡ Status.LogFull → (since : ℕ) (base : Image) (found : Tables)
        → KeepsRun D.tells D.Disk since base found runner.old disk.old
        → IsOutOfBlocks D.tells D.Disk since base found (done_of runner.new.journal.items) runner.new.store disk.new }
    ensures at_end { result ≡ Status.Done → (since : ℕ) (base : Image) (found : Tables)
        → KeepsRun D.tells D.Disk since base found runner.old disk.old
        → (c : Image) → D.can_leave disk.new c → Recovers c (tables_from found (done_of runner.new.journal.items)) }
    ensures moments { HaveMoments (D.now disk.new) runner.new.journal.items }
    ensures printed { PrinterPuts K.tells K.taken K.fault_count printer.old printer.new (text runner.new.given.items) }
    ensures clean { printer.new.gathered ≡ [] }
    ensures failed { (result ≡ Status.SinkFault) ↔ (printer.new.failed ≡ true) }
    ensures own { is_of_session result ≡ true }
    ensures later { D.now disk.old ≤ D.now disk.new }
    ensures counted { D.fault_count disk.old ≤ D.fault_count disk.new }
    ensures disk_fault { result ≡ Status.DiskFault → Rose (D.fault_count disk.old) (D.fault_count disk.new) }
{
    let status = run_all(alloc, script, disk, runner, printer);
    printer.flush();
    if printer.has_failed() {
        Status::SinkFault
    } else {
        status
    }
}
