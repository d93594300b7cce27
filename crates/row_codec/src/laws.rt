//! Laws of rows and their bytes. Each is the contract of a function that does nothing.
ghost use Rattle.std.specs.Prelude.{◌≡◌, ℕ, List, true, length, Some};
ghost use Rattle.ids_base.specs.Shapes.{Row, Shape, is_row_of, row_length};
ghost use Rattle.row_codec.specs.Premises.{IsBytes, HasTexts};
ghost use Rattle.row_codec.specs.Rows.{row_bytes, row_of};
ghost use Rattle.row_codec.specs.Catalogue.{Entry, entry_bytes, entry_of, is_entry};

/// What is read as a row of a shape is a row of it, with texts for its CHAR columns, and the bytes are its only spelling.
pub fn rows_are_spelled()
    ensures { (shape : Shape) (bytes : List ℕ) (row : Row) → IsBytes bytes → row_of shape bytes ≡ Some row → (is_row_of shape row ≡ true) × HasTexts row × (bytes ≡ row_bytes shape row) }
{}

/// The bytes of a row are read as that row.
pub fn rows_are_read()
    ensures { (shape : Shape) (row : Row) → is_row_of shape row ≡ true → HasTexts row → row_of shape (row_bytes shape row) ≡ Some row }
{}

/// What is read as a row of the catalogue is a good one, and the bytes are its only spelling.
pub fn entries_are_spelled()
    ensures { (bytes : List ℕ) (entry : Entry) → entry_of bytes ≡ Some entry → (is_entry entry ≡ true) × (bytes ≡ entry_bytes entry) }
{}

/// The bytes of a good row of the catalogue are read as that row.
pub fn entries_are_read()
    ensures { (entry : Entry) → is_entry entry ≡ true → entry_of (entry_bytes entry) ≡ Some entry }
{}

/// Rows have the length of their shape, rows of the catalogue 359 bytes.
pub fn lengths()
    ensures rows { (shape : Shape) (bytes : List ℕ) (row : Row) → row_of shape bytes ≡ Some row → length bytes ≡ row_length shape }
    ensures entries { (bytes : List ℕ) (entry : Entry) → entry_of bytes ≡ Some entry → length bytes ≡ 359 }
{}
