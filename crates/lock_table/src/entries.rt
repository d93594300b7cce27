//! The entries of a name's line, one after another.
ghost use Rattle.std.specs.Prelude.{◌≡◌, length, slice_get};
ghost use Rattle.std.specs.Iterator.{YieldsFirst, item_count};
ghost use Rattle.lock_table.specs.Book.{table_of};
ghost use Rattle.lock_table.specs.Table.{line, side};
ghost use Rattle.lock_table.specs.Requests.{earlier};

use crate::book::Book;
use crate::chains;
use ids_base::lock::{LockEntry, LockName};
use ids_base::numbers::ThreadNo;
use link_lists::Lists;
use std::marker::Model;

/// Entries of a name that are still to come: of its holders, or of its queue in its order. Contracts see the list of them. It takes
/// no memory.
#[derive(Drop)]
pub struct Entries<'a> {
    lists: &'a Lists,
    entries: &'a [LockEntry],
    list: u32,
    name: LockName,
    at: Option<u32>,
}

impl<'a> Model for Entries<'a> {
    ghost use Rattle.std.specs.Prelude.{List};
    ghost use Rattle.std.specs.Coded.{coded_list};
    ghost use Rattle.ids_base.specs.declared.lock.LockEntry.{LockEntry as Entry};
    ghost use Rattle.ids_base.specs.contracts.lock.LockEntry as entry;
    ghost use Rattle.lock_table.specs.Chains.{named_since, IsWalk};

    ghost Value = { List Entry };

    ghost coded = { coded_list entry.the_row.coded };

    ghost view = { λ s. named_since s.name s.lists.now s.entries.now s.list s.at };

    ghost invariant = { λ s. IsWalk s.lists.now s.entries.now s.list s.at };
}

impl<'a> Iterator for Entries<'a> {
    type Item = LockEntry;

    ghost next_gives = { YieldsFirst (λ s. s) };

    ghost remaining = { item_count (λ s. s) };

    /// The next entry; none where none is left. It costs the entries of other names that stand before it in the bucket.
    fn next(&mut self) -> Option<LockEntry> {
        let first = chains::named_from(self.lists, self.entries, self.list, self.at, &self.name);
        self.at = first;
        let id = first?;
        self.at = self.lists.next(id);
        Some(self.entries[id as usize])
    }
}

/// The queue of a name, or its holders. Constant time.
pub fn side<'a>(book: &'a Book, waits: bool, name: LockName) -> Entries<'a>
    ensures { result ≡ side waits (table_of book.now) name }
{
    let list = book.name_list(waits, &name);
    Entries {
        lists: &book.names,
        entries: book.entries.as_slice(),
        list,
        name,
        at: book.names.front(list),
    }
}

/// The entry at a place among those still to come; none where they are fewer.
pub fn at<'a>(entries: Entries<'a>, position: u32) -> Option<LockEntry>
    ensures { result ≡ slice_get entries.entry position }
{
    let mut rest = entries;
    for _ in 0..position {
        rest.next()?;
    }
    rest.next()
}

/// How many waiters for the name a request of the thread would stand behind.
pub fn place_of(book: &Book, thread: ThreadNo, name: LockName) -> u32
    ensures { result ≡ length (earlier (line (table_of book.now) name) thread) }
{
    let converts = book.mode_held(thread, &name).is_some();
    let mut waiters = side(book, true, name);
    let mut place = 0;
    while let Some(waiter) = waiters.next() {
        if converts && book.mode_held(waiter.thread, &name).is_none() {
            return place;
        }
        place += 1;
    }
    place
}
