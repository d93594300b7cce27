//! What the records of a log say.
ghost use Rattle.std.specs.Prelude.{◌≡◌, ◌<◌, ◌+◌, ◌^◌, [], ◌∷◌, IfOk, IfErr, OnOk, true, false, None};
ghost use Rattle.std.specs.List.{AllByRecursion};
ghost use Rattle.log_records.specs.Viewed.{view_entry};
ghost use Rattle.log_records.specs.Spelling.{IsEntry};
ghost use Rattle.ids_model.specs.Recovered.{nothing};
ghost use Rattle.fast_recovery.specs.Order.{open_by, starts, stays, ends};
ghost use Rattle.fast_recovery.specs.InPlace.{is_taken};
ghost use Rattle.fast_recovery.specs.Rising.{rises};
ghost use Rattle.fast_recovery.specs.PagedStates.{IsPagedState};
ghost use Rattle.fast_recovery.specs.LogRead.{GoesOn, RecordsFault};

use crate::fault::OpenFault;
use crate::in_place::is_in_place;
use crate::replay::Replay;
use ids_base::memory::Memory;
use ids_base::numbers::TxNo;
use ids_base::position::LogPos;
use ids_base::status::Place;
use ids_model::recovery_laws::runs_join;
use log_records::block_body::BlockBody;
use log_records::view::RecordView;
use std::alloc::Global;

/// What the records so far say. Where a call answers an error, it is of no further use.
#[derive(Drop)]
pub(crate) struct Past {
    /// What they make of pages and rows.
    pub(crate) replay: Replay,
    /// The transaction that is open after them.
    pub(crate) open_tx: Option<TxNo>,
    /// The greatest number of a transaction among them, or 0.
    pub(crate) last_tx: TxNo,
    /// The number of the block that comes next.
    pub(crate) next: u64,
}

impl Past {
    /// Before any record, the greatest number is 0, and the next block is block 1. Takes no memory.
    pub(crate) fn new(alloc: Global) -> Past
        ensures replay { result.replay ≡ nothing }
        ensures none { result.open_tx ≡ None }
        ensures last_tx { result.last_tx ≡ 0 }
        ensures next { result.next ≡ 1 }
    {
        Past {
            replay: Replay::new(alloc),
            open_tx: None,
            last_tx: 0,
            next: 1,
        }
    }

    /// Goes on by the records of the next block, among the pages from 1 to this many.
    pub(crate) fn note_body(&mut self, body: &BlockBody, pages: u32) -> Result<(), OpenFault>
        requires { self.old.next < 2 ^ 63 }
        ensures goes_on { OnOk result (GoesOn pages self.old body.now.entries self.new) }
        ensures next { OnOk result (self.new.next ≡ self.old.next + 1) }
        ensures paged { OnOk result (IsPagedState pages self.old.replay → IsPagedState pages self.new.replay) }
        ensures fault { IfErr result (λ e. RecordsFault pages self.old body.now.entries e) }
    {
        runs_join();
        are_in_range(body);
        let mut records = body.cursor();
        for index in 0..body.count() {
            let Some(view) = records.next() else {
                unreachable!()
            };
            if !self.note(&view, pages)? {
                let block = self.next;
                return Err(OpenFault::Damaged(Place::Record(LogPos { block, index })));
            }
        }
        self.next += 1;
        Ok(())
    }

    // Goes on by a record; `false` exactly where it is out of order or not in its place, or does not rise.
    fn note(&mut self, view: &RecordView, pages: u32) -> Result<bool, Memory>
        ensures noted { IfOk result (λ is_noted. is_noted ≡ true → GoesOn pages self.old (view_entry view.now ∷ []) self.new) }
        ensures refused { IfOk result (λ is_noted. is_noted ≡ false → is_taken pages self.old.last_tx self.old.open_tx self.old.replay.own (view_entry view.now) ≡ false) }
        ensures next { self.new.next ≡ self.old.next }
    {
        let Some(open_tx) = open_after(self.open_tx, view) else {
            return Ok(false);
        };
        if !is_in_place(&self.replay, pages, view) || !rises(self.last_tx, view) {
            return Ok(false);
        }
        self.replay.note(view)?;
        self.open_tx = open_tx;
        self.last_tx = self.last_tx.max(view.tx());
        Ok(true)
    }
}

// The fields of a body's records are in their ranges.
fn are_in_range(body: &BlockBody)
    ensures { AllByRecursion IsEntry body.now.entries }
{
    let _used = body.used();
}

// Whether a record rises behind records whose greatest number is this: a BEGIN has a greater one.
#[tactic(auto, using(crate::proofs::ChangeRecords::changes_rise))]
fn rises(last: TxNo, view: &RecordView) -> bool
    ensures { result ≡ rises last (view_entry view.now) }
{
    match view {
        RecordView::Begin { tx, .. } => last < *tx,
        RecordView::Commit { .. }
        | RecordView::Rollback { .. }
        | RecordView::Change { .. }
        | RecordView::Ckpoint { .. } => true,
    }
}

// Which transaction is open after a record, where this one was before; `None` where the record is out of order.
#[tactic(auto, using(crate::proofs::ChangeRecords::open_by_change))]
fn open_after(before: Option<TxNo>, view: &RecordView) -> Option<Option<TxNo>>
    ensures { result ≡ open_by before (view_entry view.now) }
{
    match view {
        RecordView::Begin { tx, .. } => started(before, *tx),
        RecordView::Commit { tx } | RecordView::Rollback { tx } => ended(before, *tx),
        RecordView::Change { tx, .. } => stayed(before, *tx),
        RecordView::Ckpoint { .. } => Some(before),
    }
}

fn started(before: Option<TxNo>, tx: TxNo) -> Option<Option<TxNo>>
    ensures { result ≡ starts before tx }
{
    match before {
        None => Some(Some(tx)),
        Some(_) => None,
    }
}

fn stayed(before: Option<TxNo>, tx: TxNo) -> Option<Option<TxNo>>
    ensures { result ≡ stays before tx }
{
    let open_tx = before?;
    if open_tx == tx {
        Some(Some(open_tx))
    } else {
        None
    }
}

fn ended(before: Option<TxNo>, tx: TxNo) -> Option<Option<TxNo>>
    ensures { result ≡ ends before tx }
{
    let open_tx = before?;
    if open_tx == tx { Some(None) } else { None }
}
