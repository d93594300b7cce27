//! Reading records from left to right: each call gives what it read and the bytes behind it.
ghost use Rattle.std.specs.Prelude.{◌≡◌, ◌≤◌, ℕ, List, length, option_map, IfSome, None};
ghost use Rattle.std.specs.Int.{w16, w32, w64};
ghost use Rattle.ids_base.specs.RowBytes.{HasRowLength};
ghost use Rattle.ids_base.specs.RowIds.{row_number};
ghost use Rattle.log_records.specs.Naming.{named_of};
ghost use Rattle.log_records.specs.Viewed.{view_entry};
ghost use Rattle.log_records.specs.Reading.{number_at, piece_at, kind_at, row_length_at, row_at, rows_at, place_at, next_at, named_at, names_at, checkpoint_at, fields_at, tail_at, entry_at};

use crate::change::ChangeView;
use crate::kind::{Kind, kind_of};
use crate::named_bytes::NamedBytes;
use crate::view::{NamedView, RecordView};
use ids_base::numbers::{TableNo, TxNo};
use ids_base::position::{LogPos, OpenTx};
use ids_base::row_id::RowId;

const MOST_NAMED: u16 = 64;

const LONGEST_ROW: u16 = 800;

/// A record at the front of the bytes.
#[tactic(auto, unfolding(crate::specs::Reading::entry_at))]
pub fn record_at(bytes: &[u8]) -> Option<(RecordView, &[u8])>
    ensures { option_map (λ x. (view_entry x.0, x.1.now)) result ≡ entry_at bytes.now }
{
    let (size, rest) = u16_at(bytes)?;
    let (view, rest) = tail(rest)?;
    if size as usize + rest.len() == bytes.len() {
        Some((view, rest))
    } else {
        None
    }
}

/// A named transaction.
#[tactic(auto, unfolding(crate::specs::Reading::named_at))]
pub fn open_tx_at(bytes: &[u8]) -> Option<(OpenTx, &[u8])>
    ensures { option_map (λ x. (named_of x.0, x.1.now)) result ≡ named_at bytes.now }
{
    let (tx, rest) = u64_at(bytes)?;
    let (block, rest) = u64_at(rest)?;
    let (index, rest) = u16_at(rest)?;
    let begin = LogPos { block, index };
    Some((OpenTx { tx, begin }, rest))
}

#[tactic(auto, unfolding(crate::specs::Reading::number_at))]
pub fn u16_at(bytes: &[u8]) -> Option<(u16, &[u8])>
    ensures { option_map (λ x. (x.0, x.1.now)) result ≡ number_at w16 bytes.now }
{
    if bytes.len() < 2 {
        return None;
    }
    let (front, rest) = bytes.split_at(2);
    Some((u16::from_be_bytes([front[0], front[1]]), rest))
}

#[tactic(auto, unfolding(crate::specs::Reading::number_at))]
fn u32_at(bytes: &[u8]) -> Option<(u32, &[u8])>
    ensures { option_map (λ x. (x.0, x.1.now)) result ≡ number_at w32 bytes.now }
{
    if bytes.len() < 4 {
        return None;
    }
    let (front, rest) = bytes.split_at(4);
    let number = u32::from_be_bytes([front[0], front[1], front[2], front[3]]);
    Some((number, rest))
}

#[tactic(auto, unfolding(crate::specs::Reading::number_at))]
pub fn u64_at(bytes: &[u8]) -> Option<(u64, &[u8])>
    ensures { option_map (λ x. (x.0, x.1.now)) result ≡ number_at w64 bytes.now }
{
    if bytes.len() < 8 {
        return None;
    }
    let (front, rest) = bytes.split_at(8);
    let number = u64::from_be_bytes([
        front[0], front[1], front[2], front[3], front[4], front[5], front[6], front[7],
    ]);
    Some((number, rest))
}

#[tactic(auto, unfolding(crate::specs::Reading::piece_at))]
fn piece(len: usize, bytes: &[u8]) -> Option<(&[u8], &[u8])>
    ensures piece { option_map (λ x. (x.0.now, x.1.now)) result ≡ piece_at len bytes.now }
    ensures length { IfSome result (λ x. length x.0.now ≡ len) }
{
    if bytes.len() < len {
        return None;
    }
    Some(bytes.split_at(len))
}

#[tactic(auto, unfolding(crate::specs::Reading::kind_at))]
fn kind(bytes: &[u8]) -> Option<(Kind, &[u8])>
    ensures { option_map (λ x. (x.0, x.1.now)) result ≡ kind_at bytes.now }
{
    match bytes {
        [] => None,
        [code, rest @ ..] => Some((kind_of(*code)?, rest)),
    }
}

#[tactic(auto, unfolding(crate::specs::Reading::row_length_at))]
fn row_length(bytes: &[u8]) -> Option<(u16, &[u8])>
    ensures length { option_map (λ x. (x.0, x.1.now)) result ≡ row_length_at bytes.now }
    ensures least { IfSome result (λ x. 1 ≤ x.0) }
    ensures most { IfSome result (λ x. x.0 ≤ 800) }
{
    let (len, rest) = u16_at(bytes)?;
    if 1 <= len && len <= LONGEST_ROW {
        Some((len, rest))
    } else {
        None
    }
}

#[tactic(auto, unfolding(crate::specs::Reading::row_at))]
fn row(bytes: &[u8]) -> Option<(&[u8], &[u8])>
    ensures row { option_map (λ x. (x.0.now, x.1.now)) result ≡ row_at bytes.now }
    ensures length { IfSome result (λ x. HasRowLength x.0.now) }
{
    let (len, rest) = row_length(bytes)?;
    piece(len as usize, rest)
}

#[tactic(auto, unfolding(crate::specs::Reading::rows_at))]
fn rows(bytes: &[u8]) -> Option<(&[u8], &[u8], &[u8])>
    ensures rows { option_map (λ x. ((x.0.now, x.1.now), x.2.now)) result ≡ rows_at bytes.now }
    ensures before { IfSome result (λ x. HasRowLength x.0.now) }
    ensures after { IfSome result (λ x. length x.0.now ≡ length x.1.now) }
{
    let (len, rest) = row_length(bytes)?;
    let (before, rest) = piece(len as usize, rest)?;
    let (after, rest) = piece(len as usize, rest)?;
    Some((before, after, rest))
}

#[tactic(auto, unfolding(crate::specs::Reading::place_at))]
fn place(bytes: &[u8]) -> Option<(TableNo, RowId, &[u8])>
    ensures { option_map (λ x. ((x.0, row_number x.1.page x.1.slot), x.2.now)) result ≡ place_at bytes.now }
{
    let (table, rest) = u32_at(bytes)?;
    let (row, rest) = u32_at(rest)?;
    Some((table, RowId::from_number(row), rest))
}

// The next named transaction, of a number behind the last.
#[tactic(auto, unfolding(crate::specs::Reading::next_at))]
fn next(last: Option<TxNo>, bytes: &[u8]) -> Option<(OpenTx, &[u8])>
    ensures { option_map (λ x. (named_of x.0, x.1.now)) result ≡ next_at last bytes.now }
{
    let (open_tx, rest) = open_tx_at(bytes)?;
    let rises = match last {
        None => true,
        Some(last) => last < open_tx.tx,
    };
    if rises { Some((open_tx, rest)) } else { None }
}

// The bytes behind so many named transactions.
fn behind_names(count: u16, bytes: &[u8]) -> Option<&[u8]>
    ensures { option_map (λ rest. rest.now) result ≡ option_map (λ x. x.1) (names_at count None bytes.now) }
{
    let mut last = None;
    let mut rest = bytes;
    for _ in 0..count {
        let Some((open_tx, after)) = next(last, rest) else {
            return None;
        };
        last = Some(open_tx.tx);
        rest = after;
    }
    Some(rest)
}

#[tactic(auto, unfolding(crate::specs::Reading::list_at, crate::specs::Reading::checkpoint_at))]
fn checkpoint(bytes: &[u8]) -> Option<(RecordView, &[u8])>
    ensures { option_map (λ x. (view_entry x.0, x.1.now)) result ≡ checkpoint_at bytes.now }
{
    let (count, names) = u16_at(bytes)?;
    if count > MOST_NAMED {
        return None;
    }
    let rest = behind_names(count, names)?;
    let named = NamedView::Lying(NamedBytes {
        count,
        bytes: names,
    });
    Some((RecordView::Ckpoint { named }, rest))
}

// What follows the transaction of a record.
#[tactic(auto, unfolding(crate::specs::Reading::fields_at))]
fn fields(kind: Kind, tx: TxNo, bytes: &[u8]) -> Option<(RecordView, &[u8])>
    ensures { option_map (λ x. (view_entry x.0, x.1.now)) result ≡ fields_at kind tx bytes.now }
{
    match kind {
        Kind::Begin => {
            let (session, rest) = u32_at(bytes)?;
            Some((RecordView::Begin { tx, session }, rest))
        }
        Kind::Commit => Some((RecordView::Commit { tx }, bytes)),
        Kind::Rollback => Some((RecordView::Rollback { tx }, bytes)),
        Kind::HInsert => inserted(tx, bytes),
        Kind::HDelete => deleted(tx, bytes),
        Kind::HUpdate => updated(tx, bytes),
        Kind::Ckpoint => { if tx == 0 { checkpoint(bytes) } else { None } }
    }
}

#[tactic(auto, unfolding(crate::specs::Reading::fields_at))]
fn inserted(tx: TxNo, bytes: &[u8]) -> Option<(RecordView, &[u8])>
    ensures { option_map (λ x. (view_entry x.0, x.1.now)) result ≡ fields_at Kind.HInsert tx bytes.now }
{
    let (table, slot, rest) = place(bytes)?;
    let (after, rest) = row(rest)?;
    let change = ChangeView {
        table,
        row: slot,
        before: None,
        after: Some(after),
    };
    Some((RecordView::Change { tx, change }, rest))
}

#[tactic(auto, unfolding(crate::specs::Reading::fields_at))]
fn deleted(tx: TxNo, bytes: &[u8]) -> Option<(RecordView, &[u8])>
    ensures { option_map (λ x. (view_entry x.0, x.1.now)) result ≡ fields_at Kind.HDelete tx bytes.now }
{
    let (table, slot, rest) = place(bytes)?;
    let (before, rest) = row(rest)?;
    let change = ChangeView {
        table,
        row: slot,
        before: Some(before),
        after: None,
    };
    Some((RecordView::Change { tx, change }, rest))
}

#[tactic(auto, unfolding(crate::specs::Reading::fields_at))]
fn updated(tx: TxNo, bytes: &[u8]) -> Option<(RecordView, &[u8])>
    ensures { option_map (λ x. (view_entry x.0, x.1.now)) result ≡ fields_at Kind.HUpdate tx bytes.now }
{
    let (table, slot, rest) = place(bytes)?;
    let (before, after, rest) = rows(rest)?;
    let change = ChangeView {
        table,
        row: slot,
        before: Some(before),
        after: Some(after),
    };
    Some((RecordView::Change { tx, change }, rest))
}

// What follows the length of a record.
#[tactic(auto, unfolding(crate::specs::Reading::tail_at))]
fn tail(bytes: &[u8]) -> Option<(RecordView, &[u8])>
    ensures { option_map (λ x. (view_entry x.0, x.1.now)) result ≡ tail_at bytes.now }
{
    let (kind, rest) = kind(bytes)?;
    let (tx, rest) = u64_at(rest)?;
    fields(kind, tx, rest)
}
