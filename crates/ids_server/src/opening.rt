//! Opening the disk for a script, running it, and formatting a disk.
ghost use Rattle.std.specs.Prelude.{◌≡◌, ◌⊎◌, ◌↔◌, ◌≤◌, ℕ, List, [], true, false};
ghost use Rattle.ids_base.specs.declared.status.Place.{Place as Spot};
ghost use Rattle.ids_base.specs.declared.status.Why.{Why as Reason};
ghost use Rattle.ids_outside.specs.Counts.{Rose};
ghost use Rattle.ids_outside.specs.Stops.{Only};
ghost use Rattle.chunk_map.specs.Layouts.{default_layout};
ghost use Rattle.chunk_map.specs.Formatted.{IsFormatted};
ghost use Rattle.ids_model.specs.Tables.{Tables};
ghost use Rattle.ids_model.specs.Text.{text};
ghost use Rattle.ids_engine.specs.Blank.{IsBlank};
ghost use Rattle.ids_engine.specs.Openings.{IsUnchanged, Refuses};
ghost use Rattle.fast_recovery.specs.Images.{Recovers};
ghost use Rattle.fast_recovery.specs.LogRead.{IsLogFull};
ghost use Rattle.ids_engine.specs.OutOfBlocks.{HasNoBlock};
ghost use Rattle.sql_reader.specs.Lines.{InGrammar, texts_of};
ghost use Rattle.ids_outside.specs.Images.{Image};
ghost use Rattle.fast_recovery.specs.declared.fault.OpenFault as opening;
ghost use Rattle.fast_recovery.specs.Opening.{IsRefusal, WasFormatted};
ghost use Rattle.ids_server.specs.Printing.{PrinterPuts};
ghost use Rattle.ids_server.specs.Serving.{RunsFrom, is_of_script, is_of_init, has_opened, is_before_disk, is_of_refused_disk};

use crate::printer::Printer;
use crate::runner::Runner;
use crate::session;
use fast_recovery::OpenFault;
use ids_base::list::List;
use ids_base::status::Status;
use ids_engine::journal_laws::{firsts_are_covered, transactions_leave_tables};
use ids_engine::store_laws::full_has_no_block;
use ids_engine::{InitPlan, Store, init_disk};
use ids_model::journal::{Committed, Given};
use ids_model::laws;
use ids_outside::{Disk, Sink};
use sql_reader::laws::every_script_has_plans;
use sql_reader::script::Checked;
use std::alloc::Global;

/// How a command ended, with the journal of committed transactions and the replies that were given.
#[derive(Drop)]
pub(crate) struct Ran {
    pub status: Status,
    pub journal: List<Committed>,
    pub given: List<Given>,
}

impl Ran {
    /// Nothing was run.
    pub(crate) fn nothing(alloc: Global, status: Status) -> Ran
        ensures status { result.status ≡ status }
        ensures journal { result.journal ≡ [] }
        ensures given { result.given ≡ [] }
    {
        Ran {
            status,
            journal: List::new(alloc),
            given: List::new(alloc),
        }
    }
}

// The status of a disk that is not opened.
fn status_of(fault: OpenFault) -> Status
    ensures own { is_of_script result ≡ true }
    ensures not_done { ¬ (result ≡ Status.Done) }
    ensures not_sink { ¬ (result ≡ Status.SinkFault) }
    ensures no_bad_script { (byte : ℕ) (why : Reason) → ¬ (result ≡ Status.BadScript byte why) }
    ensures looked { is_before_disk result ≡ false }
    ensures refused { is_of_refused_disk result ≡ true → IsRefusal fault }
    ensures disk { (result ≡ Status.DiskFault) ↔ (fault ≡ OpenFault.Disk) }
    ensures log_full { result ≡ Status.LogFull → fault ≡ OpenFault.LogFull }
    ensures was_formatted { (x : Image) → WasFormatted x fault → has_opened result ≡ true → IsFormatted x }
    ensures not_formatted { result ≡ Status.NotFormatted → fault ≡ OpenFault.NotFormatted }
    ensures damaged { (place : Spot) → result ≡ Status.Damaged place → fault ≡ OpenFault.Damaged place }
{
    match fault {
        OpenFault::Disk => Status::DiskFault,
        OpenFault::Memory => Status::Memory,
        OpenFault::NotFormatted => Status::NotFormatted,
        OpenFault::Damaged(place) => Status::Damaged(place),
        OpenFault::LogFull => Status::LogFull,
    }
}

/// Opens the disk, and runs a checked script over its store.
pub(crate) fn run_script<D: Disk, K: Sink>(
    alloc: Global,
    script: &Checked,
    disk: &mut D,
    printer: &mut Printer<K>,
) -> Ran
    requires clean { printer.old.gathered ≡ [] }
    requires sound { printer.old.failed ≡ false }

    ensures ran { (bytes : List ℕ) → script.now ≡ texts_of bytes → InGrammar bytes
        → (found : Tables) × RunsFrom D.tells D.now D.image D.can_leave D.left_at bytes found disk.old disk.new result.status result.journal result.given }
    ensures own { is_of_script result.status ≡ true }
    ensures no_bad_script { (byte : ℕ) (why : Reason) → ¬ (result.status ≡ Status.BadScript byte why) }
    ensures looked { is_before_disk result.status ≡ false }
    ensures unchanged { is_of_refused_disk result.status ≡ true → IsUnchanged D.image D.can_leave disk.old disk.new }
    ensures printed { PrinterPuts K.tells K.taken K.fault_count printer.old printer.new (text result.given) }
    ensures clean { printer.new.gathered ≡ [] }
    ensures failed { (result.status ≡ Status.SinkFault) ↔ (printer.new.failed ≡ true) }
    ensures disk_fault { result.status ≡ Status.DiskFault → Rose (D.fault_count disk.old) (D.fault_count disk.new) }
    ensures not_formatted { result.status ≡ Status.NotFormatted → D.tells → Refuses (D.image disk.old) OpenFault.NotFormatted }
    ensures was_formatted { has_opened result.status ≡ true → D.tells → IsFormatted (D.image disk.old) }
    ensures damaged { (place : Spot) → result.status ≡ Status.Damaged place → D.tells → Refuses (D.image disk.old) (OpenFault.Damaged place) }
    ensures log_full { result.status ≡ Status.LogFull → D.tells → (T : Tables) → Recovers (D.image disk.old) T → HasNoBlock (D.image disk.old) (D.image disk.new) result.journal ⊎ IsLogFull (D.image disk.old) }
{
    laws::served_at_start();
    every_script_has_plans();
    firsts_are_covered();
    transactions_leave_tables();
    full_has_no_block::<D>();
    let store = match Store::from_disk(alloc, disk) {
        Ok(store) => store,
        Err(fault) => return Ran::nothing(alloc, status_of(fault)),
    };
    let mut runner = Runner::new(alloc, store);
    let status = session::run(alloc, script, disk, &mut runner, printer);
    let (journal, given) = runner.into_parts();
    Ran {
        status,
        journal,
        given,
    }
}

/// Formats a disk by the defaults.
pub(crate) fn format<D: Disk>(alloc: Global, disk: &mut D) -> Ran
    ensures journal { result.journal ≡ [] }
    ensures given { result.given ≡ [] }
    ensures formatted { result.status ≡ Status.Done → D.tells → IsBlank default_layout (D.image disk.new) }
    ensures durable { result.status ≡ Status.Done → Only (D.image disk.new) (D.can_leave disk.new) }
    ensures was { result.status ≡ Status.Done → D.tells → ¬ IsFormatted (D.image disk.old) }
    ensures already { result.status ≡ Status.AlreadyFormatted → D.tells → IsFormatted (D.image disk.old) }
    ensures unchanged { is_of_refused_disk result.status ≡ true → IsUnchanged D.image D.can_leave disk.old disk.new }
    ensures disk_fault { result.status ≡ Status.DiskFault → Rose (D.fault_count disk.old) (D.fault_count disk.new) }
    ensures own { is_of_init result.status ≡ true }
{
    match init_disk(disk, &InitPlan::defaults()) {
        Ok(()) => Ran::nothing(alloc, Status::Done),
        Err(status) => Ran::nothing(alloc, status),
    }
}
