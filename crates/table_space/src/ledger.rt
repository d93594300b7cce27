//! The directory and the owners of pages, with what is known of the slots of each page.
ghost use Rattle.std.specs.Prelude.{◌≡◌, ◌≢◌, ◌≤◌, ◌<◌, ◌+◌, ◌-◌, ◌%◌, ◌^◌, ◌∷◌, ◌++◌, [], ◌↔◌, ℕ, None, Some, true, IsTrue, IfOk, OnOk, OnErr, MatchOption, length, replicate, slice_set};
ghost use Rattle.ids_base.specs.RowIds.{row_number};
ghost use Rattle.ids_base.specs.declared.lock.Key.{Key as TheKey};
ghost use Rattle.table_space.specs.Directory.{entries_at};
ghost use Rattle.table_space.specs.Noted.{made, noted, has_entry_for};
ghost use Rattle.table_space.specs.Seen.{Changes, IsSame, Ends, AreBlocked, IsBlocked, IsFirstVacant};
ghost use Rattle.table_space.specs.Fronts.{IsFront, AreFronts};
ghost use Rattle.table_space.specs.Opened.{AreFrontsFor, AreRoomsFor, IsOpened};
ghost use Rattle.table_space.specs.Owners.{owner_in};
ghost use Rattle.table_space.specs.Reserves.{AreReserves, AreTold, reserved_at};
ghost use Rattle.table_space.specs.Rooms.{AreFull, IsNextPage, AreRooms, known_taken};

use crate::catalogue::CATALOGUE;
use crate::directory::Directory;
use crate::front::Front;
use crate::pages::Pages;
use crate::reserves::Reserves;
use crate::rooms::Rooms;
use ids_base::lock::Key;
use ids_base::memory::Memory;
use ids_base::numbers::{TableNo, TxNo};
use ids_base::row_id::RowId;
use std::alloc::Global;
use std::marker::Model;

/// The entries of all keys and the owners of all pages, with a front for each page, the pages of each table whose slots are not known to be taken,
/// and the pages with slots that are reserved for a transaction. Contracts see the directory and the owners.
#[derive(Drop)]
pub struct Ledger {
    directory: Directory,
    owners: Pages,
    fronts: Vec<Front>,
    rooms: Rooms,
    reserves: Reserves,
    alloc: Global,
}

impl Model for Ledger {
    ghost use Rattle.std.specs.Prelude.{ℕ, List, Option, refl};
    ghost use Rattle.std.specs.Coded.{code_by, coded×, coded_ℕ, coded_list, coded_option};
    ghost use Rattle.table_space.specs.declared.directory.Directory.{Directory as TheDirectory};
    ghost use Rattle.table_space.specs.contracts.directory.Directory.{the_row as directory_row};
    ghost use Rattle.table_space.specs.Kept.{Kept};

    ghost Value = { Kept };

    ghost coded = { code_by (TheDirectory × List (Option ℕ)) (coded× directory_row.coded (coded_list (coded_option coded_ℕ))) (λ k. (k.directory, k.owners)) (λ p. record { directory = p.0; owners = p.1 }) (λ _. refl) };

    ghost use Rattle.std.specs.Prelude.{◌≡◌, length};
    ghost use Rattle.table_space.specs.Fronts.{AreFronts};
    ghost use Rattle.table_space.specs.Rooms.{AreRooms};
    ghost use Rattle.table_space.specs.Reserves.{AreReserves};
    ghost use Rattle.table_space.specs.Directory.{entries_at};

    ghost view = { λ a. record { directory = a.directory; owners = a.owners } };

    ghost invariant = { λ a. (length a.fronts.items ≡ length a.owners) × (a.rooms.pages ≡ length a.owners) × (a.reserves.pages ≡ length a.owners) × AreFronts (entries_at a.directory) a.fronts.items × AreRooms (entries_at a.directory) a.owners a.rooms × AreReserves (entries_at a.directory) a.owners a.reserves };
}

impl Ledger {
    /// So many pages without an owner, and no entries.
    pub(crate) fn new(alloc: Global, pages: u32) -> Result<Ledger, Memory>
        requires { pages < 2 ^ 24 }
        ensures owners { IfOk result (λ ledger. ledger.owners ≡ replicate pages None) }
        ensures entries { IfOk result (λ ledger. (t : ℕ) (k : TheKey) → entries_at ledger.directory t k ≡ []) }
    {
        let front = Front { taken: 0, used: 0 };
        let owners = Pages::new(alloc, pages)?;
        let mut rooms = Rooms::new(alloc, pages);
        rooms.enter_table(alloc, CATALOGUE, &owners)?;
        let reserves = Reserves::new(alloc, pages)?;
        Ok(Ledger {
            directory: Directory::new(alloc, pages)?,
            owners,
            fronts: vec![in alloc; front; pages as usize]?,
            rooms,
            reserves,
            alloc,
        })
    }

    /// The directory.
    pub(crate) fn directory(&self) -> &Directory
        ensures { result.now ≡ self.now.directory }
    {
        &self.directory
    }

    /// The owners of pages.
    pub(crate) fn owners(&self) -> &Pages
        ensures { result.now ≡ self.now.owners }
    {
        &self.owners
    }

    /// Makes room for what `note` keeps of a table, unless there is. Answers `Memory` only for want of memory, and all is as it was then. In the
    /// time of `Rooms::enter_table`.
    pub(crate) fn enter_table(&mut self, table: TableNo) -> Result<(), Memory>
        ensures directory { self.new.directory ≡ self.old.directory }
        ensures owners { self.new.owners ≡ self.old.owners }
    {
        self.rooms.enter_table(self.alloc, table, &self.owners)
    }

    /// An entry more of a key, as in the directory.
    pub(crate) fn enter(&mut self, table: TableNo, key: &Key, tx: TxNo) -> Result<(), Memory>
        ensures entered { OnOk result (Changes (entries_at self.old.directory) (entries_at self.new.directory) table key.now (entries_at self.old.directory table key.now ++ made tx ∷ [])) }
        ensures err { OnErr result (IsSame (entries_at self.old.directory) (entries_at self.new.directory)) }
        ensures owners { self.new.owners ≡ self.old.owners }
    {
        self.directory.enter(table, key, tx)?;
        Ok(())
    }

    /// Drops the empty entries of a transaction, as in the directory. Beside the time of the directory's `end`, logarithmic in the pages and the
    /// tables, and linear in the used slots, for each page with a slot that is reserved, and not filled, for a transaction whose number is the same
    /// modulo 63.
    pub(crate) fn end(&mut self, tx: TxNo)
        ensures ended { Ends (entries_at self.old.directory) (entries_at self.new.directory) tx }
        ensures owners { self.new.owners ≡ self.old.owners }
    {
        open_pages(
            &mut self.fronts,
            &mut self.rooms,
            &self.reserves,
            &self.directory,
            &self.owners,
            tx,
        );
        self.directory.end(tx);
        renew_pages(
            &mut self.reserves,
            &self.directory,
            &self.fronts,
            &self.owners,
            tx,
        );
    }

    /// Fills or empties an entry, as in the directory, and gives its page to the table. The slots after it are looked at, as far as they are taken
    /// and were used before; where the entry is emptied, or the page has slots that are reserved, all used slots of the page are.
    pub(crate) fn note(
        &mut self,
        table: TableNo,
        key: &Key,
        row: RowId,
        filled: bool,
        tx: TxNo,
        slots: u8,
    )
        requires found { has_entry_for (row_number row.page row.slot) filled (entries_at self.old.directory table key.now) ≡ true }
        requires first { 1 ≤ row.page }
        requires last { row.page ≤ length self.old.owners }
        ensures noted { Changes (entries_at self.old.directory) (entries_at self.new.directory) table key.now (noted (row_number row.page row.slot) filled tx (entries_at self.old.directory table key.now)) }
        ensures owned { self.new.owners ≡ slice_set self.old.owners (row.page - 1) (Some table) }
    {
        let front = self.front_of(row.page);
        self.directory.note(table, key, row.number(), filled, tx);
        self.owners.set(row.page, table);
        let used = front.used.max(row.slot);
        let taken = self.directory.taken_to(row, front.taken, used);
        self.fronts[row.page as usize - 1] = Front { taken, used };
        self.rooms.mark(row.page, table, slots, taken);
        if !filled || self.reserves.has_any(row.page) {
            renew(
                &mut self.reserves,
                &self.directory,
                &self.fronts,
                &self.owners,
                row.page,
            );
        }
    }

    /// Gives a page to a table, and takes it for one that may have a vacant slot. Logarithmic in the pages and the tables, and linear in the used
    /// slots where some are reserved; takes no memory.
    pub(crate) fn own(&mut self, table: TableNo, page: u32)
        requires first { 1 ≤ page }
        requires last { page ≤ length self.old.owners }
        ensures owned { self.new.owners ≡ slice_set self.old.owners (page - 1) (Some table) }
        ensures directory { self.new.directory ≡ self.old.directory }
    {
        self.owners.set(page, table);
        self.rooms.mark(page, table, 0, 0);
        if self.reserves.has_any(page) {
            renew(
                &mut self.reserves,
                &self.directory,
                &self.fronts,
                &self.owners,
                page,
            );
        }
    }

    /// The next page from one on that may be the table's and have a vacant slot, where its pages have so many slots. In the time of `Rooms::next`
    /// and `Reserves::next_for`.
    pub(crate) fn next_page(&self, table: TableNo, slots: u8, tx: TxNo, from: u32) -> Option<u32>
        requires { 1 ≤ from }
        ensures { MatchOption result (AreFull (entries_at self.now.directory) self.now.owners table slots tx from (length self.now.owners + 1)) (IsNextPage (entries_at self.now.directory) self.now.owners table slots tx from) }
    {
        let open = self.rooms.next(table, slots, from);
        let reserved = self.reserves.next_for(table, tx, from);
        match (open, reserved) {
            (Some(open), Some(reserved)) => Some(open.min(reserved)),
            (Some(open), None) => Some(open),
            (None, reserved) => reserved,
        }
    }

    // What is known of the slots of a page.
    fn front_of(&self, page: u32) -> Front
        requires first { 1 ≤ page }
        requires last { page ≤ length self.now.owners }
        ensures { IsFront (entries_at self.now.directory) page result }
    {
        self.fronts[page as usize - 1]
    }

    // Whether an entry fills the slot, or reserves it for another transaction. In the time of the directory's `blocks`, where it was used.
    fn is_blocked(&self, front: Front, page: u32, slot: u32, tx: TxNo) -> bool
        requires front { IsFront (entries_at self.now.directory) page front }
        requires few { page < 2 ^ 24 }
        requires small { slot < 256 }
        ensures { IsTrue result ↔ IsBlocked (entries_at self.now.directory) (row_number page slot) tx }
    {
        slot <= u32::from(front.used) && self.directory.blocks(page * 256 + slot, tx)
    }

    /// The first vacant slot of a page, of so many. Constant time for a slot that was never used, and that of the directory's `blocks` for each
    /// other one from the first on that is not known to be taken; from slot 1 on where slots of the page are reserved for the transaction.
    pub(crate) fn vacant_slot(&self, page: u32, slots: u8, tx: TxNo) -> Option<u8>
        requires few { page < 2 ^ 24 }
        requires first { 1 ≤ page }
        requires last { page ≤ length self.now.owners }
        ensures { MatchOption result (AreBlocked (entries_at self.now.directory) page (slots + 1) tx) (IsFirstVacant (entries_at self.now.directory) page slots tx) }
    {
        let front = self.front_of(page);
        let known = if self.reserves.has(page, tx) {
            0
        } else {
            front.taken
        };
        for slot in u32::from(known) + 1..u32::from(slots) + 1 {
            if !self.is_blocked(front, page, slot, tx) {
                return Some(slot as u8);
            }
        }
        None
    }
}

// Before the end of a transaction: no slot is known to be taken any longer that is reserved for it and not filled.
fn open_pages(
    fronts: &mut [Front],
    rooms: &mut Rooms,
    reserves: &Reserves,
    directory: &Directory,
    owners: &Pages,
    tx: TxNo,
)
    requires front_pages { length fronts.old ≡ length owners.now }
    requires room_pages { rooms.old.pages ≡ length owners.now }
    requires reserve_pages { reserves.now.pages ≡ length owners.now }
    requires fronts { AreFronts (entries_at directory.now) fronts.old }
    requires rooms { AreRooms (entries_at directory.now) owners.now rooms.old }
    requires reserves { AreReserves (entries_at directory.now) owners.now reserves.now }
    ensures front_pages { length fronts.new ≡ length fronts.old }
    ensures room_pages { rooms.new.pages ≡ rooms.old.pages }
    ensures fronts { AreFrontsFor (entries_at directory.now) fronts.new tx }
    ensures rooms { AreRoomsFor (entries_at directory.now) owners.now rooms.new tx }
{
    let mut from = 1;
    while let Some(page) = reserves.next_of(tx, from) {
        open_page(fronts, rooms, directory, owners, page, tx);
        from = page + 1;
    }
}

// The same of one page.
fn open_page(
    fronts: &mut [Front],
    rooms: &mut Rooms,
    directory: &Directory,
    owners: &Pages,
    page: u32,
    tx: TxNo,
)
    requires few { page < 2 ^ 24 }
    requires first { 1 ≤ page }
    requires last { page ≤ length owners.now }
    requires front_pages { length fronts.old ≡ length owners.now }
    requires room_pages { rooms.old.pages ≡ length owners.now }
    requires fronts { AreFronts (entries_at directory.now) fronts.old }
    requires rooms { AreRooms (entries_at directory.now) owners.now rooms.old }
    ensures front_pages { length fronts.new ≡ length fronts.old }
    ensures room_pages { rooms.new.pages ≡ rooms.old.pages }
    ensures fronts { AreFronts (entries_at directory.now) fronts.new }
    ensures rooms { AreRooms (entries_at directory.now) owners.now rooms.new }
    ensures opened { IsOpened (entries_at directory.now) owners.now fronts.new rooms.new tx page }
    ensures others { (p : ℕ) → 1 ≤ p → p ≢ page → IsOpened (entries_at directory.now) owners.now fronts.old rooms.old tx p → IsOpened (entries_at directory.now) owners.now fronts.new rooms.new tx p }
{
    let front = fronts[page as usize - 1];
    let kept = directory.kept_to(page, front.used, tx);
    if kept == front.used {
        return;
    }
    fronts[page as usize - 1] = Front {
        taken: front.taken.min(kept),
        used: front.used,
    };
    mark_open(rooms, owners, page);
}

// No slot of a page is known to be taken as one of its table.
fn mark_open(rooms: &mut Rooms, owners: &Pages, page: u32)
    requires first { 1 ≤ page }
    requires last { page ≤ length owners.now }
    requires room_pages { rooms.old.pages ≡ length owners.now }
    ensures here { (t : ℕ) → owner_in owners.now page ≡ Some t → known_taken rooms.new t page ≤ 0 }
    ensures others { (p t : ℕ) → 1 ≤ p → p ≢ page → known_taken rooms.new t p ≤ known_taken rooms.old t p }
    ensures pages { rooms.new.pages ≡ rooms.old.pages }
{
    if let Some(table) = owners.get(page) {
        rooms.mark(page, table, 0, 0);
    }
}

// Marks the pages anew that have the mark of a transaction.
fn renew_pages(
    reserves: &mut Reserves,
    directory: &Directory,
    fronts: &[Front],
    owners: &Pages,
    tx: TxNo,
)
    requires front_pages { length fronts.now ≡ length owners.now }
    requires reserve_pages { reserves.old.pages ≡ length owners.now }
    requires fronts { AreFronts (entries_at directory.now) fronts.now }
    requires reserves { AreReserves (entries_at directory.now) owners.now reserves.old }
    ensures reserve_pages { reserves.new.pages ≡ reserves.old.pages }
    ensures reserves { AreReserves (entries_at directory.now) owners.now reserves.new }
{
    let mut from = 1;
    while let Some(page) = reserves.next_of(tx, from) {
        renew(reserves, directory, fronts, owners, page);
        from = page + 1;
    }
}

// Marks a page anew: with the marks that its used slots give.
fn renew(
    reserves: &mut Reserves,
    directory: &Directory,
    fronts: &[Front],
    owners: &Pages,
    page: u32,
)
    requires first { 1 ≤ page }
    requires last { page ≤ length owners.now }
    requires front_pages { length fronts.now ≡ length owners.now }
    requires reserve_pages { reserves.old.pages ≡ length owners.now }
    requires fronts { AreFronts (entries_at directory.now) fronts.now }
    ensures here { AreTold (entries_at directory.now) (reserved_at reserves.new page) (owner_in owners.now page) page }
    ensures others { (p : ℕ) → 1 ≤ p → p ≢ page → reserved_at reserves.new p ≡ reserved_at reserves.old p }
    ensures reserve_pages { reserves.new.pages ≡ reserves.old.pages }
{
    let used = fronts[page as usize - 1].used;
    let marks = directory.reserved_in(page, used, owners.get(page));
    reserves.put(page, marks);
}
