//! Slots of pages, and the entries of their rows' keys.
ghost use Rattle.std.specs.Prelude.{◌≡◌};
ghost use Rattle.ids_base.specs.RowIds.{row_number};
ghost use Rattle.ids_engine.specs.Indexed.{Directs, Moves};
ghost use Rattle.ids_engine.specs.Held.{IsSlotOf, IsPlaceIn, emptied, filled};

use crate::pages::Pages;
use crate::row_keys::key_in;
use fast_recovery::owner::Owner;
use ids_base::numbers::TxNo;
use ids_base::row_id::RowId;
use table_space::TableSpace;

/// Empties a slot of a page, and the entry of its row's key, where it holds a row. Takes no memory.
pub(crate) fn empty_slot(
    pages: &mut Pages,
    space: &mut TableSpace,
    row: RowId,
    owner: Owner,
    tx: TxNo,
)
    requires slot { IsSlotOf pages.old.own space.old owner row.page row.slot }
    requires directs { Directs pages.old.own pages.old.slots space.old }
    ensures pages { pages.new ≡ emptied pages.old (row_number row.page row.slot) }
    ensures directs { Directs pages.new.own pages.new.slots space.new }
    ensures moves { Moves tx space.old space.new }
{
    // Each row has its page's length.
    let _ = pages.count();
    let Some(bytes) = pages.row_at(row.number()) else {
        return;
    };
    let key = key_in(space, owner.table, bytes);
    space.note(owner.table, row, &key, false, tx);
    pages.empty(row);
}

/// Puts a row into an empty slot, and fills the entry of its key. Takes no memory.
pub(crate) fn fill_slot(
    pages: &mut Pages,
    space: &mut TableSpace,
    row: RowId,
    owner: Owner,
    bytes: &[u8],
    tx: TxNo,
)
    requires place { IsPlaceIn pages.old space.old owner row.page row.slot bytes.now }
    requires directs { Directs pages.old.own pages.old.slots space.old }
    ensures pages { pages.new ≡ filled pages.old row.page (row_number row.page row.slot) owner bytes.now }
    ensures directs { Directs pages.new.own pages.new.slots space.new }
    ensures moves { Moves tx space.old space.new }
{
    // Each row has its page's length.
    let _ = pages.count();
    let key = key_in(space, owner.table, bytes);
    space.note(owner.table, row, &key, true, tx);
    pages.put(row, owner, bytes);
}
