//! A log, record by record.
ghost use Rattle.std.specs.Prelude.{◌≡◌, ◌↔◌, [], ◌∷◌, IfOk, OnOk, IsTrue, option_copied};
ghost use Rattle.ids_base.specs.RowIds.{page_of, row_number};
ghost use Rattle.log_records.specs.Entries as says;
ghost use Rattle.log_records.specs.Viewed.{change_entry, view_entry};
ghost use Rattle.ids_model.specs.Slots.{own_at, slot_at, set_own, set_slot, assign};
ghost use Rattle.ids_model.specs.Recovered.{nothing, run, seen, of_tx, others, all_taken_back};
ghost use Rattle.fast_recovery.specs.Changed.{changed};

use crate::owner::Owner;
use crate::owners::Owners;
use crate::slots::FilledSlots;
use crate::standing::{Standing, TxChange};
use ids_base::memory::Memory;
use ids_base::numbers::TxNo;
use ids_base::row_bytes::RowBytes;
use ids_base::row_id::RowId;
use log_records::change::ChangeView;
use log_records::view::RecordView;
use std::alloc::Global;
use std::marker::Model;

/// What the records so far make of pages and rows, and the changes of transactions that are open after them. Contracts see
/// the state. Where a call answers `Memory`, the replay is of no further use.
#[derive(Drop)]
pub struct Replay {
    owners: Owners,
    slots: FilledSlots,
    standing: Standing,
    alloc: Global,
}

impl Model for Replay {
    ghost use Rattle.ids_model.specs.Recovered.{State};
    ghost use Rattle.fast_recovery.specs.Codes.{coded_state};

    ghost Value = { State };

    ghost coded = { coded_state };

    ghost view = { λ a. record { own = a.owners; slots = a.slots; standing = a.standing } };
}

impl Replay {
    /// The state before any record. Takes no memory.
    pub fn new(alloc: Global) -> Replay
        ensures { result ≡ nothing }
    {
        Replay {
            owners: Owners::new(alloc),
            slots: FilledSlots::new(alloc),
            standing: Standing::new(alloc),
            alloc,
        }
    }

    /// Goes on by a record. Logarithmic time and copies of the record's rows; COMMIT and ROLLBACK take time of the standing
    /// changes.
    pub fn note(&mut self, view: &RecordView) -> Result<(), Memory>
        ensures { OnOk result (self.new ≡ run self.old (view_entry view.now ∷ [])) }
    {
        match view {
            RecordView::Begin { .. } | RecordView::Ckpoint { .. } => Ok(()),
            RecordView::Commit { tx } => forget(self.alloc, &mut self.standing, *tx),
            RecordView::Rollback { tx } => self.roll_back(*tx),
            RecordView::Change { tx, change } => self.change(*tx, change),
        }
    }

    /// Takes all standing changes back, the latest first. Logarithmic time for each.
    pub fn take_back(&mut self) -> Result<(), Memory>
        ensures { OnOk result (self.new ≡ record { own = self.old.own; slots = seen self.old; standing = [] }) }
    {
        take_all_back(&mut self.slots, &mut self.standing)
    }

    /// The owner of a page, if it has one, in logarithmic time.
    pub fn owner_at(&self, page: u32) -> Option<Owner>
        ensures { result ≡ own_at self.now.own page }
    {
        self.owners.get(page)
    }

    /// The bytes of the row in a slot, if it holds one, in logarithmic time.
    pub fn row_at(&self, row: u32) -> Option<&[u8]>
        ensures { option_copied result ≡ slot_at self.now.slots row }
    {
        self.slots.get(row)
    }

    /// Whether changes stand.
    pub fn has_standing(&self) -> bool
        ensures { IsTrue result ↔ ¬ (self.now.standing ≡ []) }
    {
        !self.standing.is_empty()
    }

    // Where it takes memory.
    pub(crate) fn alloc(&self) -> Global {
        self.alloc
    }

    // The owners of pages.
    pub(crate) fn owners(&self) -> &Owners
        ensures { result.now ≡ self.now.own }
    {
        &self.owners
    }

    // The rows in slots.
    pub(crate) fn slots(&self) -> &FilledSlots
        ensures { result.now ≡ self.now.slots }
    {
        &self.slots
    }

    // Takes back the changes of a transaction.
    fn roll_back(&mut self, tx: TxNo) -> Result<(), Memory>
        ensures { OnOk result (self.new ≡ run self.old (says.Rollback tx ∷ [])) }
    {
        take_back_of(self.alloc, &mut self.slots, &mut self.standing, tx)
    }

    // Makes a change; a row that is put into an empty slot gives its page to the table.
    fn change(&mut self, tx: TxNo, change: &ChangeView) -> Result<(), Memory>
        ensures { OnOk result (self.new ≡ run self.old (change_entry tx change.now ∷ [])) }
    {
        match (change.before, change.after) {
            (None, Some(row)) => {
                let (table, row_length) = (change.table, row.len() as u16);
                self.own(change.row, Owner { table, row_length })?;
                self.stand(tx, change)
            }
            (Some(_), None) | (Some(_), Some(_)) => self.stand(tx, change),
            (None, None) => unreachable!(),
        }
    }

    // Gives the page of a row to an owner.
    fn own(&mut self, row: RowId, owner: Owner) -> Result<(), Memory>
        ensures { OnOk result (self.new ≡ record self.old { own = set_own self.old.own (page_of (row_number row.page row.slot)) owner }) }
    {
        self.owners.set(row.page, owner)
    }

    // Makes a change in its slot, where it stands.
    fn stand(&mut self, tx: TxNo, change: &ChangeView) -> Result<(), Memory>
        ensures { OnOk result (self.new ≡ changed self.old (record { tx = tx; slot = row_number change.now.row.page change.now.row.slot; before = option_copied change.now.before; after = option_copied change.now.after })) }
    {
        let change = change.to_change(self.alloc)?;
        let after = copy_of(self.alloc, &change.after)?;
        self.slots.set(change.row.number(), after)?;
        self.standing.push(TxChange { tx, change })
    }
}

fn copy_of(alloc: Global, row: &Option<RowBytes>) -> Result<Option<RowBytes>, Memory>
    ensures { IfOk result (λ copy. copy ≡ row.now) }
{
    match row {
        None => Ok(None),
        Some(row) => Ok(Some(row.copy(alloc)?)),
    }
}

// Takes a change back.
fn undo(slots: &mut FilledSlots, undone: TxChange) -> Result<(), Memory>
    ensures { OnOk result (slots.new ≡ set_slot slots.old undone.slot undone.before) }
{
    let change = undone.change;
    slots.set(change.row.number(), change.before)
}

// Takes all changes back, the latest first.
fn take_all_back(slots: &mut FilledSlots, standing: &mut Standing) -> Result<(), Memory>
    ensures slots { OnOk result (slots.new ≡ assign slots.old (all_taken_back standing.old)) }
    ensures standing { OnOk result (standing.new ≡ []) }
{
    'changes: while let Some(change) = standing.pop() {
        undo(slots, change)?;
    }
    Ok(())
}

// Takes the changes of a transaction back, the latest first, and leaves those of the others.
fn take_back_of(
    alloc: Global,
    slots: &mut FilledSlots,
    standing: &mut Standing,
    tx: TxNo,
) -> Result<(), Memory>
    ensures slots { OnOk result (slots.new ≡ assign slots.old (all_taken_back (of_tx tx standing.old))) }
    ensures standing { OnOk result (standing.new ≡ others tx standing.old) }
{
    let mut left = Vec::new(alloc);
    'changes: while let Some(change) = standing.pop() {
        if change.tx == tx {
            undo(slots, change)?;
        } else {
            left.push(change)?;
        }
    }
    *standing = Standing::from_latest(left);
    Ok(())
}

// Forgets the changes of a transaction.
fn forget(alloc: Global, standing: &mut Standing, tx: TxNo) -> Result<(), Memory>
    ensures { OnOk result (standing.new ≡ others tx standing.old) }
{
    let mut left = Vec::new(alloc);
    'changes: while let Some(change) = standing.pop() {
        if change.tx != tx {
            left.push(change)?;
        }
    }
    *standing = Standing::from_latest(left);
    Ok(())
}
