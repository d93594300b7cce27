//! What is known of a slot without a look at the entries.
ghost use Rattle.std.specs.Prelude.{◌≡◌};
ghost use Rattle.table_space.specs.Slots.{one_less, filled_more, filled_less, emptied_more, emptied_less, is_some_known, known_taken, may_be_left, known_blocks};

use ids_base::numbers::TxNo;

/// The count of which nothing is known.
pub(crate) const MANY: u16 = 65535;

/// How many entries fill a slot, how many empty ones reserve it, and the transaction whose all of those are. A count that reaches `MANY` says
/// nothing, and stays.
#[derive(Clone, Copy, Debug)]
pub struct Slot {
    pub filled: u16,
    pub emptied: u16,
    pub reserved_for: TxNo,
}

impl Slot {
    /// Once an entry more fills the slot. Constant time.
    pub(crate) fn filled_more(self) -> Slot
        ensures { result ≡ filled_more self }
    {
        Slot {
            filled: self.filled.saturating_add(1),
            emptied: self.emptied,
            reserved_for: self.reserved_for,
        }
    }

    /// Once an entry less fills the slot. Constant time.
    pub(crate) fn filled_less(self) -> Slot
        ensures { result ≡ filled_less self }
    {
        Slot {
            filled: less(self.filled),
            emptied: self.emptied,
            reserved_for: self.reserved_for,
        }
    }

    /// Once an empty entry more, of this transaction, reserves the slot. Where those of another do, their count is lost. Constant time.
    pub(crate) fn emptied_more(self, tx: TxNo) -> Slot
        ensures { result ≡ emptied_more tx self }
    {
        let (emptied, reserved_for) = if self.emptied == 0 {
            (1, tx)
        } else if self.reserved_for == tx {
            (self.emptied.saturating_add(1), tx)
        } else {
            (MANY, self.reserved_for)
        };
        Slot {
            filled: self.filled,
            emptied,
            reserved_for,
        }
    }

    /// Once an empty entry less reserves the slot. Constant time.
    pub(crate) fn emptied_less(self) -> Slot
        ensures { result ≡ emptied_less self }
    {
        Slot {
            filled: self.filled,
            emptied: less(self.emptied),
            reserved_for: self.reserved_for,
        }
    }

    /// Whether an entry is known to fill the slot. Constant time.
    pub(crate) fn is_filled(self) -> bool
        ensures { result ≡ is_some_known self.filled }
    {
        is_some_known(self.filled)
    }

    /// Whether an entry is known to fill the slot or to reserve it. Constant time.
    pub(crate) fn is_taken(self) -> bool
        ensures { result ≡ known_taken self }
    {
        is_some_known(self.filled) || is_some_known(self.emptied)
    }

    /// Whether the slot may be reserved for a transaction, and is not known to be filled. Constant time.
    pub(crate) fn may_be_left(self, tx: TxNo) -> bool
        ensures { result ≡ may_be_left tx self }
    {
        !is_some_known(self.filled)
            && self.emptied > 0
            && (self.reserved_for == tx || self.emptied == MANY)
    }

    /// Whether an entry fills the slot, or reserves it for a transaction other than this one, where that is known. Constant time.
    pub(crate) fn blocks(self, tx: TxNo) -> Option<bool>
        ensures { result ≡ known_blocks tx self }
    {
        if self.filled > 0 && self.filled < MANY {
            Some(true)
        } else if self.filled == 0 && self.emptied < MANY {
            Some(self.emptied > 0 && self.reserved_for != tx)
        } else {
            None
        }
    }
}

// Whether a count is known, and something is counted.
fn is_some_known(count: u16) -> bool
    ensures { result ≡ is_some_known count }
{
    0 < count && count < MANY
}

// A count once there is one less.
fn less(count: u16) -> u16
    ensures { result ≡ one_less count }
{
    if count < MANY {
        count.saturating_sub(1)
    } else {
        MANY
    }
}
