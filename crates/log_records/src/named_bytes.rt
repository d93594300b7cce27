//! Named transactions where their bytes lie.
ghost use Rattle.std.specs.Prelude.{◌≡◌, ◌*◌, length, IfOk};
ghost use Rattle.std.specs.List.{flat_map};
ghost use Rattle.log_records.specs.Spelling.{AreNamed, named_bytes};

use crate::named::NamedList;
use crate::reading::open_tx_at;
use ids_base::memory::Memory;
use std::alloc::Global;
use std::marker::Model;

/// So many named transactions, at the front of the bytes. Contracts see the list of them.
#[derive(Drop)]
pub struct NamedBytes<'a> {
    pub(crate) count: u16,
    pub(crate) bytes: &'a [u8],
}

impl<'a> Model for NamedBytes<'a> {
    ghost use Rattle.std.specs.Prelude.{List};
    ghost use Rattle.log_records.specs.Entries.{Named};
    ghost use Rattle.log_records.specs.Lying.{names_of, AreLying};

    ghost Value = { List Named };

    ghost view = { λ a. names_of a.count a.bytes.now };

    ghost invariant = { λ a. AreLying a.count a.bytes.now };
}

impl NamedBytes<'_> {
    /// How many they are.
    pub(crate) fn count(&self) -> u16
        ensures count { result ≡ length self.now }
        ensures named { AreNamed self.now }
    {
        self.count
    }

    /// Their bytes, one after another.
    pub(crate) fn spelled(&self) -> &[u8]
        ensures bytes { result.now ≡ flat_map named_bytes self.now }
        ensures length { length result.now ≡ 18 * length self.now }
    {
        &self.bytes[..18 * self.count as usize]
    }

    /// The transactions as a list of its own, in time of their number.
    pub(crate) fn to_list(&self, alloc: Global) -> Result<NamedList, Memory>
        ensures { IfOk result (λ list. list ≡ self.now) }
    {
        let mut list = NamedList::with_room(alloc)?;
        let mut rest = self.bytes;
        for _ in 0..self.count {
            let Some((open_tx, after)) = open_tx_at(rest) else {
                unreachable!()
            };
            list.push(open_tx);
            rest = after;
        }
        Ok(list)
    }
}
