//! The records of a body, one by one.
ghost use Rattle.std.specs.Prelude.{◌≡◌, [], ◌∷◌, IfSome, IfNone};
ghost use Rattle.log_records.specs.Viewed.{view_entry};

use crate::reading::record_at;
use crate::view::RecordView;
use std::marker::Model;

/// The records of a body that are still to come, where their bytes lie. Contracts see what they say, in order.
#[derive(Drop)]
pub struct Records<'a> {
    pub(crate) count: u16,
    pub(crate) rest: &'a [u8],
}

impl<'a> Model for Records<'a> {
    ghost use Rattle.std.specs.Prelude.{List};
    ghost use Rattle.log_records.specs.Entries.{Entry};
    ghost use Rattle.log_records.specs.Keeping.{left_in, AreLeft};

    ghost Value = { List Entry };

    ghost view = { λ a. left_in a.count a.rest.now };

    ghost invariant = { λ a. AreLeft a.count a.rest.now };
}

impl<'a> Records<'a> {
    /// The next record, in time of its size; `None` exactly where none is left. Takes no memory.
    pub fn next(&mut self) -> Option<RecordView<'a>>
        ensures next { IfSome result (λ view. self.old ≡ view_entry view ∷ self.new) }
        ensures over { IfNone result (self.old ≡ []) }
        ensures still_over { IfNone result (self.new ≡ []) }
    {
        if self.count == 0 {
            return None;
        }
        let Some((view, after)) = record_at(self.rest) else {
            unreachable!()
        };
        self.rest = after;
        self.count -= 1;
        Some(view)
    }
}
