//! Opening a disk whose tables are kept by the logical log alone: in order,
//!
//! 1. a sync, behind which a stop leaves what is read;
//! 2. the identity and the newest checkpoint are read, which is to be the one that formatting writes;
//! 3. the blocks of the log are read from number 1 on, each once, and their records are noted;
//! 4. where a transaction is open, a ROLLBACK of it is noted; the tables that pages and rows then stand for are found;
//! 5. the places behind the log are closed;
//! 6. where a transaction is open, the ROLLBACK of it is appended and flushed.
//!
//! So a disk that is refused is as it was.
ghost use Rattle.std.specs.Prelude.{◌≡◌, ◌⊎◌, ◌≤◌, ◌<◌, ◌+◌, ◌*◌, ◌^◌, ℕ, List, [], Err, Some, None, length, IfOk, IfErr, OnOk, OnErr};
ghost use Rattle.ids_outside.specs.Counts.{Rose, last_count};
ghost use Rattle.ids_outside.specs.Images.{Image};
ghost use Rattle.ids_outside.specs.Stops.{AreAmong, Leaves, Only};
ghost use Rattle.chunk_map.specs.Layouts.{IsLayout, HasPages};
ghost use Rattle.chunk_map.specs.Checkpoints.{IsNewest, page_of};
ghost use Rattle.chunk_map.specs.Formatted.{HasLayout, IsFormatted};
ghost use Rattle.log_records.specs.Bodies.{Body};
ghost use Rattle.log_records.specs.Entries.{Entry};
ghost use Rattle.log_files.specs.Log.{body_at, EndsWhole};
ghost use Rattle.log_files.specs.Files.{IsReady, all_free, taken};
ghost use Rattle.log_buffer.specs.Buffers.{empty_at};
ghost use Rattle.fast_recovery.specs.KeptLog.{Flushed, KeepsLog, Outlives};
ghost use Rattle.ids_model.specs.Tables.{Tables};
ghost use Rattle.ids_model.specs.Recovered.{run};
ghost use Rattle.fast_recovery.specs.Found.{IsKept};
ghost use Rattle.fast_recovery.specs.Images.{first_checkpoint, log_region, page_count, Recovers};
ghost use Rattle.fast_recovery.specs.Order.{closing};
ghost use Rattle.fast_recovery.specs.Paged.{IsPaged};
ghost use Rattle.fast_recovery.specs.PagedStates.{IsPagedState};
ghost use Rattle.fast_recovery.specs.LogRead.{OpenCause, AreAlone};
ghost use Rattle.fast_recovery.specs.RowDamaged.{RowsFault};
ghost use Rattle.fast_recovery.specs.Opening.{buffer_blocks, files_from, FoundIn, SameLog, HasOpened, IsOpened, KeepsOpened, IsSince, OnlyBehind, IsUnsynced, TablesStay, IsWant, ClosingFault, IsRefusal, WasFormatted};

use crate::fault::OpenFault;
use crate::log_laws::{appends_keep, flushes_keep};
use crate::past::Past;
use crate::replay::Replay;
use crate::roll_forward::read_log;
use crate::tables::{Found, TablesFault};
use chunk_map::laws::{one_of_each, same_pages};
use chunk_map::{CheckpointPage, Layout, newest, read_identity};
use gate_blocks::laws::{apart, changes};
use ids_base::memory::Memory;
use ids_base::numbers::TxNo;
use ids_base::position::LogPos;
use ids_base::status::Place;
use ids_model::recovery_laws::{rollbacks_are_seen, runs_join};
use ids_outside::{Disk, laws};
use log_buffer::LogBuffer;
use log_files::LogFiles;
use log_records::view::RecordView;
use std::alloc::Global;
use std::marker::Brand;

/// For how many blocks the buffer of the log has room.
const BUFFER_BLOCKS: u32 = 8;

/// A disk that was opened.
#[derive(Drop)]
pub struct Opened {
    /// How it is laid out.
    pub layout: Layout,
    /// The files of its log.
    pub files: LogFiles,
    /// A buffer without records.
    pub buffer: LogBuffer,
    /// What the log makes of pages and rows; nothing stands.
    pub replay: Replay,
    /// The tables that these stand for.
    pub found: Found,
    /// The greatest number of a transaction of the log, or 0.
    pub last_tx: TxNo,
}

/// Opens a disk, with a ROLLBACK of the transaction that was open at its end.
///
/// Errors, in the order in which they are looked for: `NotFormatted` and `Damaged` as the identity page and the checkpoint pages
/// say; `Damaged` also where the newest checkpoint is not the one that formatting writes, and at the first record of the log that
/// is out of order or not in its place, or does not rise: a change names a page and a slot that are there, in a page of its table
/// and its row's length, and an insert may name a page that has no owner yet; a BEGIN has a greater number than each record
/// before it; and at a row that the log leaves and that breaks a rule of well
/// formed rows. `LogFull` where a transaction is open and the log has no block left; `Disk` only where a call of the disk failed;
/// `Memory` where memory was wanting. Where the disk is refused, nothing was written. A stop at any moment leaves the tables as
/// they were; where something was pending as the call began, at any moment behind that, or, as where the first sync fails, the
/// disk failed and a stop leaves only what it could have left as the call began.
///
/// Reads the identity page once and the checkpoint pages twice, the blocks of the log up to the first that does not count, and
/// the gate of each other block; a write for each open gate among these, two for the ROLLBACK, and a few syncs. It takes memory
/// for the rows of the log twice, and for a buffer of eight blocks.
pub fn open_log<D: Disk>(alloc: Global, disk: &mut D) -> Result<Opened, OpenFault>
    ensures opened { IfOk result (λ o. D.tells → HasOpened (D.image disk.old) o) }
    // Also on a disk that does not tell its bytes.
    ensures in_order { IfOk result IsOpened }
    ensures lies { IfOk result (λ o. HasPages (D.size disk.old) o.layout) }
    ensures paged { IfOk result (λ o. IsPaged (o.layout.chunks * o.layout.data_pages) o.replay.own o.replay.slots) }
    ensures ready { IfOk result (λ o. IsReady D.Disk o.files disk.new) }
    // Everything that is appended is kept from here on.
    ensures keeps { IfOk result (λ o. D.tells → (since : ℕ) → IsSince D.now D.image D.can_leave disk.old since
        → KeepsOpened D.Disk since (D.image disk.old) o disk.new) }
    ensures any_moment { TablesStay D.now D.image D.can_leave D.left_at disk.old disk.new (result ≡ Err OpenFault.Disk) }
    ensures formatted { OnOk result (D.tells → IsFormatted (D.image disk.old)) }
    ensures was_formatted { IfErr result (λ e. D.tells → WasFormatted (D.image disk.old) e) }
    ensures fault { IfErr result (λ e. D.tells → OpenCause (D.image disk.old) e) }
    ensures refused { IfErr result (λ e. IsRefusal e → D.image disk.new ≡ D.image disk.old) }
    // An image from which tables are recovered is not refused.
    ensures accepts { IfErr result (λ e. D.tells → (T : Tables) → Recovers (D.image disk.old) T → ¬ IsRefusal e) }
    ensures stop { IfErr result (λ e. IsRefusal e → AreAmong (D.can_leave disk.new) (D.can_leave disk.old)) }
    ensures sizes { (j : ℕ) → D.size disk.new j ≡ D.size disk.old j }
    ensures counted { D.fault_count disk.old ≤ D.fault_count disk.new }
    ensures cause { result ≡ Err OpenFault.Disk → Rose (D.fault_count disk.old) (D.fault_count disk.new) }
{
    apart();
    one_of_each();
    same_pages();
    runs_join();
    rollbacks_are_seen();
    let (layout, past) = read_disk(alloc, disk)?;
    let mut replay = past.replay;
    note_end(&mut replay, past.open_tx)?;
    let found = tables_of(&replay)?;
    let (files, buffer) = start_log(alloc, disk, &layout, past.next)?;
    let mut opened = Opened {
        layout,
        files,
        buffer,
        replay,
        found,
        last_tx: past.last_tx,
    };
    close_log(disk, &mut opened, past.open_tx)?;
    Ok(opened)
}

// The layout of a disk whose newest checkpoint is the one that formatting writes.
fn read_layout<D: Disk>(disk: &mut D) -> Result<Layout, OpenFault>
    ensures layout { IfOk result (λ l. D.tells → HasLayout l (D.image disk.old)) }
    ensures newest { IfOk result (λ l. D.tells → IsNewest first_checkpoint (D.image disk.old)) }
    ensures formatted { OnOk result (D.tells → IsFormatted (D.image disk.old)) }
    ensures was_formatted { IfErr result (λ e. D.tells → WasFormatted (D.image disk.old) e) }
    ensures fault { IfErr result (λ e. D.tells → OpenCause (D.image disk.old) e) }
    // Also on a disk that does not tell its bytes.
    ensures in_range { IfOk result IsLayout }
    ensures lies { IfOk result (λ l. HasPages (D.size disk.old) l) }
    ensures same { D.image disk.new ≡ D.image disk.old }
    ensures stop { AreAmong (D.can_leave disk.new) (D.can_leave disk.old) }
    ensures any_moment { Leaves D.now D.can_leave D.left_at disk.old disk.new (λ x y. y ≡ x) }
    ensures sizes { (j : ℕ) → D.size disk.new j ≡ D.size disk.old j }
    ensures counted { D.fault_count disk.old ≤ D.fault_count disk.new }
    ensures cause { result ≡ Err OpenFault.Disk → Rose (D.fault_count disk.old) (D.fault_count disk.new) }
{
    laws::then::<D, Brand, Brand, Brand>();
    let layout = read_identity(disk)?;
    let page = newest(disk, &layout)?;
    if page != first_checkpoint() {
        return Err(OpenFault::Damaged(Place::Checkpoint(page_of(page.number))));
    }
    Ok(layout)
}

// The layout of a disk, and what the records of its log say.
fn read_disk<D: Disk>(alloc: Global, disk: &mut D) -> Result<(Layout, Past), OpenFault>
    ensures found { IfOk result (λ r. D.tells → FoundIn (D.image disk.old) r.0 r.1) }
    ensures formatted { OnOk result (D.tells → IsFormatted (D.image disk.old)) }
    ensures was_formatted { IfErr result (λ e. D.tells → WasFormatted (D.image disk.old) e) }
    ensures fault { IfErr result (λ e. D.tells → OpenCause (D.image disk.old) e) }
    // Also on a disk that does not tell its bytes.
    ensures in_range { IfOk result (λ r. IsLayout r.0) }
    ensures lies { IfOk result (λ r. HasPages (D.size disk.old) r.0) }
    ensures alone { IfOk result (λ r. AreAlone r.1.open_tx r.1.replay.standing) }
    ensures paged { IfOk result (λ r. IsPagedState (page_count r.0) r.1.replay) }
    ensures from { IfOk result (λ r. 1 ≤ r.1.next) }
    ensures to { IfOk result (λ r. r.1.next ≤ 1 + r.0.logs * r.0.log_size) }
    ensures same { D.image disk.new ≡ D.image disk.old }
    ensures stop { AreAmong (D.can_leave disk.new) (D.can_leave disk.old) }
    // A stop leaves what was read.
    ensures settled { IfOk result (λ r. Only (D.image disk.new) (D.can_leave disk.new)) }
    // Also one behind the moment at which it began, unless the disk failed.
    ensures behind { OnlyBehind D.now D.left_at (D.image disk.old) disk.old disk.new
        ⊎ ((result ≡ Err OpenFault.Disk) × (D.now disk.new < last_count → IsUnsynced D.now D.image D.can_leave D.left_at disk.old disk.new)) }
    ensures any_moment { Leaves D.now D.can_leave D.left_at disk.old disk.new (λ x y. y ≡ x) }
    ensures sizes { (j : ℕ) → D.size disk.new j ≡ D.size disk.old j }
    ensures counted { D.fault_count disk.old ≤ D.fault_count disk.new }
    ensures cause { result ≡ Err OpenFault.Disk → Rose (D.fault_count disk.old) (D.fault_count disk.new) }
{
    laws::started::<D, Brand>();
    laws::stays::<D, Brand>();
    laws::then::<D, Brand, Brand, Brand>();
    disk.sync()?;
    let layout = read_layout(disk)?;
    let past = read_log(alloc, disk, &files_of(&layout, 1), page_count(&layout))?;
    Ok((layout, past))
}

// How many data pages a layout has.
fn page_count(layout: &Layout) -> u32
    requires { IsLayout layout.now }
    ensures { result ≡ page_count layout.now }
{
    layout.chunks * layout.data_pages
}

// Closes the places behind the log, and begins its buffer.
fn start_log<D: Disk>(
    alloc: Global,
    disk: &mut D,
    layout: &Layout,
    next: u64,
) -> Result<(LogFiles, LogBuffer), OpenFault>
    requires ranges { IsLayout layout.now }
    requires lies { HasPages (D.size disk.old) layout.now }
    requires from { 1 ≤ next }
    requires to { next ≤ 1 + layout.now.logs * layout.now.log_size }
    requires settled { Only (D.image disk.old) (D.can_leave disk.old) }
    // The blocks before the next were read, and the next does not count and is not broken.
    requires held { D.tells → (b : ℕ) → 1 ≤ b → b < next → (body : Body) × (body_at (log_region layout.now) b (D.image disk.old) ≡ Some body) }
    requires ends { D.tells → body_at (log_region layout.now) next (D.image disk.old) ≡ None }
    requires whole { D.tells → EndsWhole (log_region layout.now) 1 (D.image disk.old) }

    ensures files { IfOk result (λ r. r.0 ≡ all_free (files_from layout.now next)) }
    ensures buffer { IfOk result (λ r. r.1 ≡ empty_at next buffer_blocks) }
    ensures ready { IfOk result (λ r. IsReady D.Disk r.0 disk.new) }
    ensures any_moment { Leaves D.now D.can_leave D.left_at disk.old disk.new (SameLog (files_from layout.now next)) }
    ensures fault { IfErr result IsWant }
    ensures sizes { (j : ℕ) → D.size disk.new j ≡ D.size disk.old j }
    ensures counted { D.fault_count disk.old ≤ D.fault_count disk.new }
    ensures cause { result ≡ Err OpenFault.Disk → Rose (D.fault_count disk.old) (D.fault_count disk.new) }
{
    laws::started::<D, Brand>();
    laws::seen_as::<D, Brand, Brand>();
    changes();
    let buffer = LogBuffer::new(alloc, next, BUFFER_BLOCKS)?;
    let mut files = files_of(layout, next);
    files.clear_rest(disk)?;
    Ok((files, buffer))
}

// Notes a ROLLBACK of the transaction that is open, if one is.
fn note_end(replay: &mut Replay, open_tx: Option<TxNo>) -> Result<(), Memory>
    ensures { OnOk result (replay.new ≡ run replay.old (closing open_tx)) }
{
    let Some(tx) = open_tx else {
        return Ok(());
    };
    replay.note(&RecordView::Rollback { tx })
}

// The tables that pages and rows stand for.
fn tables_of(replay: &Replay) -> Result<Found, OpenFault>
    ensures found { IfOk result (λ f. IsKept replay.now f.tables f.numbers f.greatest) }
    ensures fault { IfErr result (RowsFault replay.now) }
{
    match replay.tables() {
        Ok(found) => Ok(found),
        Err(TablesFault::Memory) => Err(OpenFault::Memory),
        Err(TablesFault::Damaged(row)) => Err(OpenFault::Damaged(Place::Row(row))),
    }
}

// Rolls back the transaction that is open, if one is: the ROLLBACK is appended and flushed.
fn close_log<D: Disk>(
    disk: &mut D,
    opened: &mut Opened,
    open_tx: Option<TxNo>,
) -> Result<(), OpenFault>
    requires ready { IsReady D.Disk opened.old.files disk.old }
    requires buffer { opened.old.buffer ≡ empty_at opened.old.files.next buffer_blocks }
    requires number { opened.old.files.next < 2 ^ 63 }

    ensures layout { OnOk result (opened.new.layout ≡ opened.old.layout) }
    ensures last_tx { OnOk result (opened.new.last_tx ≡ opened.old.last_tx) }
    ensures replay { OnOk result (opened.new.replay ≡ opened.old.replay) }
    ensures found { OnOk result (opened.new.found ≡ opened.old.found) }
    ensures files { OnOk result (opened.new.files ≡ taken opened.old.files (length (closing open_tx))) }
    ensures buffer { OnOk result (opened.new.buffer ≡ empty_at opened.new.files.next buffer_blocks) }
    // What is kept before it is kept on, with the ROLLBACK.
    ensures keeps { OnOk result ((since : ℕ) (base : Image) (before : List Entry)
        → KeepsLog D.Disk since base before [] [] opened.old.files opened.old.buffer disk.old
        → (marks : List Flushed) × KeepsLog D.Disk since base before (closing open_tx) marks opened.new.files opened.new.buffer disk.new) }
    ensures outlives { OnErr result ((since : ℕ) (base : Image) (before : List Entry)
        → KeepsLog D.Disk since base before [] [] opened.old.files opened.old.buffer disk.old
        → Outlives D.now D.left_at since base before (closing open_tx) [] opened.old.files disk.new) }
    ensures fault { IfErr result (ClosingFault ((tx : ℕ) × (open_tx ≡ Some tx) × (opened.old.files.next ≡ opened.old.files.limit))) }
    ensures sizes { (j : ℕ) → D.size disk.new j ≡ D.size disk.old j }
    ensures counted { D.fault_count disk.old ≤ D.fault_count disk.new }
    ensures cause { result ≡ Err OpenFault.Disk → Rose (D.fault_count disk.old) (D.fault_count disk.new) }
{
    appends_keep::<D>();
    flushes_keep::<D>();
    let Some(tx) = open_tx else {
        return Ok(());
    };
    if opened.files.free() == 0 {
        return Err(OpenFault::LogFull);
    }
    opened.buffer.append(RecordView::Rollback { tx });
    opened.buffer.flush(disk, &mut opened.files)?;
    Ok(())
}

// The files of a layout, whose blocks from 1 on to before this one are retained.
pub(crate) fn files_of(layout: &Layout, next: u64) -> LogFiles
    requires ranges { IsLayout layout.now }
    requires from { 1 ≤ next }
    requires to { next ≤ 1 + layout.now.logs * layout.now.log_size }
    ensures { result ≡ files_from layout.now next }
{
    LogFiles::new(layout.log_region(), layout.log_size, 1, next)
}

// The checkpoint that formatting writes.
fn first_checkpoint() -> CheckpointPage
    ensures { result ≡ first_checkpoint }
{
    CheckpointPage {
        number: 1,
        quiet: true,
        start: LogPos { block: 1, index: 0 },
    }
}

// The page on which a checkpoint with this number stands.
fn page_of(number: u64) -> u8
    ensures { result ≡ page_of number }
{
    2 - (number % 2) as u8
}
