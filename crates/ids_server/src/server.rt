//! The top call: all that the program does, over the words, the source, the sink, the disk and the gate that it is handed.
ghost use Rattle.std.specs.Prelude.{◌≡◌, ◌⊎◌, ◌↔◌, ◌<◌, ◌≤◌, ◌++◌, ℕ, List, [], length, true, false};
ghost use Rattle.ids_base.specs.declared.status.Place.{Place as Spot};
ghost use Rattle.ids_base.specs.declared.status.Why.{Why as Reason};
ghost use Rattle.ids_outside.specs.Counts.{Rose};
ghost use Rattle.ids_outside.specs.Stops.{Only};
ghost use Rattle.chunk_map.specs.Layouts.{default_layout};
ghost use Rattle.chunk_map.specs.Formatted.{IsFormatted};
ghost use Rattle.ids_model.specs.Tables.{Tables};
ghost use Rattle.ids_model.specs.Text.{text};
ghost use Rattle.ids_engine.specs.Blank.{IsBlank};
ghost use Rattle.ids_engine.specs.Openings.{IsUnchanged, Refuses};
ghost use Rattle.fast_recovery.specs.Images.{Recovers};
ghost use Rattle.fast_recovery.specs.LogRead.{IsLogFull};
ghost use Rattle.ids_engine.specs.OutOfBlocks.{HasNoBlock};
ghost use Rattle.sql_reader.specs.Lines.{InGrammar, IsBadAt};
ghost use Rattle.ids_server.specs.Words.{is_run, is_init, is_command};
ghost use Rattle.ids_server.specs.Lines.{status_line};
ghost use Rattle.ids_server.specs.Printing.{IsFront, TakesPart, PrinterPuts, PrinterCarries, PrinterIsCaused};
ghost use Rattle.ids_server.specs.Serving.{RunsFrom, UnlessUnread, IsToldBad, IsDoneBut, has_read, has_opened, is_of_script, is_of_run, is_of_init, is_before_disk, is_of_refused_disk};

use crate::opening::{Ran, format, run_script};
use crate::printer::Printer;
use crate::reading::{MOST_BYTES, ReadFault, read_script};
use crate::text::put_status;
use crate::words::{Command, command_of};
use fast_recovery::OpenFault;
use ids_base::list::List;
use ids_base::status::{Status, Why};
use ids_engine::laws::recovered_is_accepted;
use ids_model::journal::{Committed, Given};
use ids_model::laws;
use ids_outside::{Disk, Gate, Sink, Source};
use sql_reader::script::{ScriptFault, check_script};
use std::alloc::Global;

/// How a command ended: its status, the disk and the sink that were handed in, the journal of committed transactions, and
/// the replies that were given.
#[derive(Drop)]
pub struct Ended<D, K> {
    pub status: Status,
    pub disk: D,
    pub out: K,
    pub journal: List<Committed>,
    pub given: List<Given>,
}

// Checks a script, and runs it over the store of the disk.
fn check_and_run<D: Disk, K: Sink>(
    alloc: Global,
    bytes: Vec<u8>,
    disk: &mut D,
    printer: &mut Printer<K>,
) -> Ran
    requires clean { printer.old.gathered ≡ [] }
    requires sound { printer.old.failed ≡ false }
    ensures ran { (found : Tables) × RunsFrom D.tells D.now D.image D.can_leave D.left_at bytes.items found disk.old disk.new result.status result.journal result.given }
    ensures bad_script { (byte : ℕ) (why : Reason) → result.status ≡ Status.BadScript byte why → IsBadAt bytes.items byte × (why ≡ Why.Wrong) }
    ensures own { is_of_script result.status ≡ true }
    ensures untouched { is_before_disk result.status ≡ true → disk.new ≡ disk.old }
    ensures unchanged { is_of_refused_disk result.status ≡ true → IsUnchanged D.image D.can_leave disk.old disk.new }
    ensures printed { PrinterPuts K.tells K.taken K.fault_count printer.old printer.new (text result.given) }
    ensures clean { printer.new.gathered ≡ [] }
    ensures failed { (result.status ≡ Status.SinkFault) ↔ (printer.new.failed ≡ true) }
    ensures disk_fault { result.status ≡ Status.DiskFault → Rose (D.fault_count disk.old) (D.fault_count disk.new) }
    ensures not_formatted { result.status ≡ Status.NotFormatted → D.tells → Refuses (D.image disk.old) OpenFault.NotFormatted }
    ensures was_formatted { has_opened result.status ≡ true → D.tells → IsFormatted (D.image disk.old) }
    ensures damaged { (place : Spot) → result.status ≡ Status.Damaged place → D.tells → Refuses (D.image disk.old) (OpenFault.Damaged place) }
    ensures log_full { result.status ≡ Status.LogFull → D.tells → (T : Tables) → Recovers (D.image disk.old) T → HasNoBlock (D.image disk.old) (D.image disk.new) result.journal ⊎ IsLogFull (D.image disk.old) }
{
    laws::served_at_start();
    match check_script(alloc, bytes) {
        Ok(script) => run_script(alloc, &script, disk, printer),
        Err(ScriptFault::Bad { byte, why }) => {
            Ran::nothing(alloc, Status::BadScript { byte, why })
        }
        Err(ScriptFault::Memory) => Ran::nothing(alloc, Status::Memory),
    }
}

// Reads the script of the source, checks it and runs it.
fn run_source<D: Disk, S: Source, K: Sink>(
    alloc: Global,
    source: &mut S,
    disk: &mut D,
    printer: &mut Printer<K>,
) -> Ran
    requires clean { printer.old.gathered ≡ [] }
    requires sound { printer.old.failed ≡ false }
    ensures ran { (found : Tables) × (bytes : List ℕ) × (S.tells → S.left source.old ≡ bytes)
        × RunsFrom D.tells D.now D.image D.can_leave D.left_at bytes found disk.old disk.new result.status result.journal result.given }
    ensures bad_script { (byte : ℕ) (why : Reason) → result.status ≡ Status.BadScript byte why → S.tells → IsBadAt (S.left source.old) byte × (why ≡ Why.Wrong) }
    ensures too_long { result.status ≡ Status.TooLong → S.tells → MOST_BYTES < length (S.left source.old) }
    ensures read { has_read result.status ≡ true → S.tells → length (S.left source.old) ≤ MOST_BYTES }
    ensures source_fault { result.status ≡ Status.SourceFault → Rose (S.fault_count source.old) (S.fault_count source.new) }
    ensures own { is_of_run result.status ≡ true }
    ensures untouched { is_before_disk result.status ≡ true → disk.new ≡ disk.old }
    ensures unchanged { is_of_refused_disk result.status ≡ true → IsUnchanged D.image D.can_leave disk.old disk.new }
    ensures printed { PrinterPuts K.tells K.taken K.fault_count printer.old printer.new (text result.given) }
    ensures clean { printer.new.gathered ≡ [] }
    ensures failed { (result.status ≡ Status.SinkFault) ↔ (printer.new.failed ≡ true) }
    ensures disk_fault { result.status ≡ Status.DiskFault → Rose (D.fault_count disk.old) (D.fault_count disk.new) }
    ensures not_formatted { result.status ≡ Status.NotFormatted → D.tells → Refuses (D.image disk.old) OpenFault.NotFormatted }
    ensures was_formatted { has_opened result.status ≡ true → D.tells → IsFormatted (D.image disk.old) }
    ensures damaged { (place : Spot) → result.status ≡ Status.Damaged place → D.tells → Refuses (D.image disk.old) (OpenFault.Damaged place) }
    ensures log_full { result.status ≡ Status.LogFull → D.tells → (T : Tables) → Recovers (D.image disk.old) T → HasNoBlock (D.image disk.old) (D.image disk.new) result.journal ⊎ IsLogFull (D.image disk.old) }
{
    laws::served_at_start();
    match read_script(alloc, source) {
        Ok(bytes) => check_and_run(alloc, bytes, disk, printer),
        Err(ReadFault::Source) => Ran::nothing(alloc, Status::SourceFault),
        Err(ReadFault::TooLong) => Ran::nothing(alloc, Status::TooLong),
        Err(ReadFault::Memory) => Ran::nothing(alloc, Status::Memory),
    }
}

// Does what the words ask for.
fn answer<D: Disk, S: Source, K: Sink>(
    alloc: Global,
    words: &[String],
    source: &mut S,
    disk: &mut D,
    printer: &mut Printer<K>,
) -> Ran
    requires clean { printer.old.gathered ≡ [] }
    requires sound { printer.old.failed ≡ false }
    ensures ran { is_run words.now ≡ true → (found : Tables) × (bytes : List ℕ) × (S.tells → S.left source.old ≡ bytes)
        × RunsFrom D.tells D.now D.image D.can_leave D.left_at bytes found disk.old disk.new result.status result.journal result.given }
    ensures idle { is_run words.now ≡ false → (result.journal ≡ []) × (result.given ≡ []) }
    ensures own_run { is_run words.now ≡ true → is_of_run result.status ≡ true }
    ensures own_init { is_init words.now ≡ true → is_of_init result.status ≡ true }
    ensures untouched { is_before_disk result.status ≡ true → disk.new ≡ disk.old }
    ensures unchanged { is_of_refused_disk result.status ≡ true → IsUnchanged D.image D.can_leave disk.old disk.new }
    ensures formatted { is_init words.now ≡ true → result.status ≡ Status.Done → (D.tells → IsBlank default_layout (D.image disk.new) × ¬ IsFormatted (D.image disk.old)) × Only (D.image disk.new) (D.can_leave disk.new) }
    ensures already { is_init words.now ≡ true → result.status ≡ Status.AlreadyFormatted → D.tells → IsFormatted (D.image disk.old) }
    ensures bad_words { (result.status ≡ Status.BadWords) ↔ (is_command words.now ≡ false) }
    ensures bad_script { (byte : ℕ) (why : Reason) → result.status ≡ Status.BadScript byte why → S.tells → IsBadAt (S.left source.old) byte × (why ≡ Why.Wrong) }
    ensures too_long { result.status ≡ Status.TooLong → S.tells → MOST_BYTES < length (S.left source.old) }
    ensures read { is_run words.now ≡ true → has_read result.status ≡ true → S.tells → length (S.left source.old) ≤ MOST_BYTES }
    ensures source_fault { result.status ≡ Status.SourceFault → Rose (S.fault_count source.old) (S.fault_count source.new) }
    ensures printed { PrinterPuts K.tells K.taken K.fault_count printer.old printer.new (text result.given) }
    ensures clean { printer.new.gathered ≡ [] }
    ensures failed { (result.status ≡ Status.SinkFault) ↔ (printer.new.failed ≡ true) }
    ensures disk_fault { result.status ≡ Status.DiskFault → Rose (D.fault_count disk.old) (D.fault_count disk.new) }
    ensures not_formatted { result.status ≡ Status.NotFormatted → D.tells → Refuses (D.image disk.old) OpenFault.NotFormatted }
    ensures was_formatted { is_run words.now ≡ true → has_opened result.status ≡ true → D.tells → IsFormatted (D.image disk.old) }
    ensures damaged { (place : Spot) → result.status ≡ Status.Damaged place → D.tells → Refuses (D.image disk.old) (OpenFault.Damaged place) }
    ensures full_of_run { result.status ≡ Status.LogFull → is_run words.now ≡ true }
    ensures log_full { result.status ≡ Status.LogFull → D.tells → (T : Tables) → Recovers (D.image disk.old) T → HasNoBlock (D.image disk.old) (D.image disk.new) result.journal ⊎ IsLogFull (D.image disk.old) }
{
    match command_of(words) {
        None => Ran::nothing(alloc, Status::BadWords),
        Some(Command::Run) => run_source(alloc, source, disk, printer),
        Some(Command::Init) => format(alloc, disk),
    }
}

// Writes the line of the status, unless the sink failed, and gives the sink back.
fn finish<K: Sink>(mut printer: Printer<K>, status: &Status) -> K
    requires clean { printer.gathered ≡ [] }
    ensures front { (before : List ℕ) → PrinterCarries K.tells K.taken printer before → printer.failed ≡ true → K.tells → IsFront (K.taken result) before }
    ensures behind { (before : List ℕ) → PrinterCarries K.tells K.taken printer before → printer.failed ≡ false → K.tells → TakesPart before (K.taken result) (status_line status.now) }
    ensures whole { (before : List ℕ) (first : ℕ) → PrinterCarries K.tells K.taken printer before → PrinterIsCaused K.fault_count printer first → printer.failed ≡ false → K.tells → (K.taken result ≡ before ++ status_line status.now) ⊎ Rose first (K.fault_count result) }
    ensures cause { (first : ℕ) → PrinterIsCaused K.fault_count printer first → printer.failed ≡ true → Rose first (K.fault_count result) }
{
    if !printer.has_failed() {
        put_status(&mut printer, status);
        printer.flush();
    }
    printer.into_sink()
}

/// Does what the words ask for, and gives back what it was handed with what came of it. `run` reads the script from the source,
/// opens the disk, runs the script's statements in one session over the tables that the disk keeps, and writes each reply to the
/// sink; a commit is answered after a sync that makes it outlive every stop. `init` formats the disk by the defaults. The gate is
/// not called.
///
/// It returns for every source: it reads at most 67108865 bytes. Statuses, in the order in which they are looked for:
/// `BadWords` exactly where the words are no command; for `run` `SourceFault` only where the source failed, `TooLong` exactly
/// where it gives more than 67108864 bytes; `BadScript` exactly where a line of the script is not one that is read, with the place
/// where the first such line begins; `NotFormatted` and `Damaged` as opening says; in the run `SinkFault` only where the sink
/// failed, `DiskFault` only where the disk failed, and `LogFull` where the log has no block left; for `init` `AlreadyFormatted` and
/// `DiskFault`. `Memory` may come between the others; then what was given and committed stands. Linear in the script beside the
/// statements' own costs.
pub fn server<D: Disk + Send, S: Source, K: Sink + Send, G: Gate + Sync>(
    alloc: Global,
    words: &[String],
    script: &mut S,
    disk: D,
    out: K,
    gate: &G,
) -> Ended<D, K>
    requires fresh { K.tells → K.taken out ≡ [] }

    // A run: the journal is legal from the tables that opening found and matches the script; a stop at any moment leaves the tables
    // after its first entries, with each that was acknowledged by then. Where something was pending as the call began, at any moment
    // behind that, or, as where opening's first sync fails, the disk failed before anything was given or committed, and a stop leaves
    // only what it could have left as the call began.
    ensures ran { is_run words.now ≡ true → (found : Tables) × (bytes : List ℕ) × (S.tells → S.left script.old ≡ bytes)
        × RunsFrom D.tells D.now D.image D.can_leave D.left_at bytes found disk result.disk result.status result.journal result.given }
    ensures idle { is_run words.now ≡ false → (result.journal ≡ []) × (result.given ≡ []) }

    // Each command answers its own statuses, and no others.
    ensures own_run { is_run words.now ≡ true → is_of_run result.status ≡ true }
    ensures own_init { is_init words.now ≡ true → is_of_init result.status ≡ true }

    // A disk that is formatted.
    ensures formatted { is_init words.now ≡ true → result.status ≡ Status.Done → (D.tells → IsBlank default_layout (D.image result.disk) × ¬ IsFormatted (D.image disk)) × Only (D.image result.disk) (D.can_leave result.disk) }
    ensures already { is_init words.now ≡ true → result.status ≡ Status.AlreadyFormatted → D.tells → IsFormatted (D.image disk) }

    // The sink took the text of the replies and then the line of the status, or a front of these where it failed.
    ensures front { result.status ≡ Status.SinkFault → K.tells → IsFront (K.taken result.out) (text result.given) }
    ensures behind { ¬ (result.status ≡ Status.SinkFault) → K.tells → TakesPart (text result.given) (K.taken result.out) (status_line result.status) }
    ensures whole { ¬ (result.status ≡ Status.SinkFault) → K.tells → (K.taken result.out ≡ text result.given ++ status_line result.status) ⊎ Rose (K.fault_count out) (K.fault_count result.out) }

    // Where the words, the source or the script are refused, the disk is the one that was handed in; where the disk is refused, a read
    // gives what it gave, and a stop leaves only what it could have left.
    ensures untouched { is_before_disk result.status ≡ true → result.disk ≡ disk }
    ensures unchanged { is_of_refused_disk result.status ≡ true → IsUnchanged D.image D.can_leave disk result.disk }

    // Where no call failed, a command is done: a script that is read, over an image from which tables are recovered, but for want of
    // memory, and of a block of the log; and the formatting of a disk that is not formatted.
    ensures complete { is_run words.now ≡ true → S.tells → D.tells
        → ¬ Rose (S.fault_count script.old) (S.fault_count script.new) → ¬ Rose (D.fault_count disk) (D.fault_count result.disk) → ¬ Rose (K.fault_count out) (K.fault_count result.out)
        → length (S.left script.old) ≤ MOST_BYTES → InGrammar (S.left script.old) → (T : Tables) → Recovers (D.image disk) T → IsDoneBut result.status }
    ensures complete_init { is_init words.now ≡ true → D.tells → ¬ Rose (D.fault_count disk) (D.fault_count result.disk) → ¬ IsFormatted (D.image disk) → result.status ≡ Status.Done }

    // A source that gives too much, and a script with a line that is none, are told so, unless the source failed or memory was wanting.
    ensures told_long { is_run words.now ≡ true → S.tells → MOST_BYTES < length (S.left script.old) → UnlessUnread result.status (result.status ≡ Status.TooLong) }
    ensures told_bad { is_run words.now ≡ true → S.tells → length (S.left script.old) ≤ MOST_BYTES → ¬ InGrammar (S.left script.old) → UnlessUnread result.status (IsToldBad (S.left script.old) result.status) }

    // Each status but `Memory` has its cause.
    ensures bad_words { (result.status ≡ Status.BadWords) ↔ (is_command words.now ≡ false) }
    ensures bad_script { (byte : ℕ) (why : Reason) → result.status ≡ Status.BadScript byte why → S.tells → IsBadAt (S.left script.old) byte × (why ≡ Why.Wrong) }
    ensures too_long { result.status ≡ Status.TooLong → S.tells → MOST_BYTES < length (S.left script.old) }
    ensures read { is_run words.now ≡ true → has_read result.status ≡ true → S.tells → length (S.left script.old) ≤ MOST_BYTES }
    ensures source_fault { result.status ≡ Status.SourceFault → Rose (S.fault_count script.old) (S.fault_count script.new) }
    ensures sink_fault { result.status ≡ Status.SinkFault → Rose (K.fault_count out) (K.fault_count result.out) }
    ensures disk_fault { result.status ≡ Status.DiskFault → Rose (D.fault_count disk) (D.fault_count result.disk) }
    ensures not_formatted { result.status ≡ Status.NotFormatted → D.tells → Refuses (D.image disk) OpenFault.NotFormatted }
    ensures was_formatted { is_run words.now ≡ true → has_opened result.status ≡ true → D.tells → IsFormatted (D.image disk) }
    ensures damaged { (place : Spot) → result.status ≡ Status.Damaged place → D.tells → Refuses (D.image disk) (OpenFault.Damaged place) }
    // What a stop leaves of a run is run again: an image from which tables are recovered is neither not formatted nor damaged.
    ensures accepts { is_run words.now ≡ true → D.tells → (T : Tables) → Recovers (D.image disk) T
        → ¬ (result.status ≡ Status.NotFormatted) × ((place : Spot) → ¬ (result.status ≡ Status.Damaged place)) }
    ensures log_full { result.status ≡ Status.LogFull → (is_run words.now ≡ true)
        × (D.tells → (T : Tables) → Recovers (D.image disk) T → HasNoBlock (D.image disk) (D.image result.disk) result.journal ⊎ IsLogFull (D.image disk)) }
{
    recovered_is_accepted();
    let _ = gate;
    let mut disk = disk;
    let mut printer = Printer::new(alloc, out);
    let ran = answer(alloc, words, script, &mut disk, &mut printer);
    let out = finish(printer, &ran.status);
    Ended {
        status: ran.status,
        disk,
        out,
        journal: ran.journal,
        given: ran.given,
    }
}
