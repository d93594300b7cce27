//! Owners of pages.
ghost use Rattle.std.specs.Prelude.{◌≡◌, ◌↔◌, IsTrue};
ghost use Rattle.ids_model.specs.Stands.{catalogue};

use ids_base::numbers::{CATALOGUE, CATALOGUE_ROW, TableNo};
use std::marker::Model;

/// The owner of a page: a table, and the length of its rows. Contracts see the pair of both.
#[derive(Clone, Copy, Debug, PartialEq, Eq)]
pub struct Owner {
    pub table: TableNo,
    pub row_length: u16,
}

impl Model for Owner {
    ghost use Rattle.std.specs.Prelude.{ℕ};

    ghost Value = { ℕ × ℕ };

    ghost view = { λ a. (a.table, a.row_length) };

    ghost inverse = { λ p. record { table = p.0; row_length = p.1 } };
}

impl Owner {
    /// Whether this is the owner of the pages of the catalogue.
    pub(crate) fn is_catalogue(&self) -> bool
        ensures { IsTrue result ↔ (self.now ≡ catalogue) }
    {
        self.table == CATALOGUE && self.row_length == CATALOGUE_ROW
    }
}
