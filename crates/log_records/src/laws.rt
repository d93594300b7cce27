//! Laws of the bytes of records and bodies, each the contract of a function with an empty body.
ghost use Rattle.std.specs.Prelude.{◌≡◌, ◌++◌, ◌<◌, ℕ, List, length, Some};
ghost use Rattle.log_records.specs.Entries.{Entry};
ghost use Rattle.log_records.specs.Spelling.{entry_bytes, entry_size, IsEntry, AreBytes};
ghost use Rattle.log_records.specs.Bodies.{Body, IsBody, body_bytes, body_of};

/// No record's bytes are a proper prefix of another's: what was put is taken again, whatever follows.
pub fn one_reading()
    ensures { (a b : Entry) (x y : List ℕ) → IsEntry a → IsEntry b → entry_bytes a ++ x ≡ entry_bytes b ++ y → (a ≡ b) × (x ≡ y) }
{}

/// A record's size is the number of its bytes.
pub fn sizes_are_lengths()
    ensures { (e : Entry) → length (entry_bytes e) ≡ entry_size e }
{}

/// What a body spells is read as that body.
pub fn bodies_are_read()
    ensures { (b : Body) → IsBody b → body_of (body_bytes b) ≡ Some b }
{}

/// What is read as a body is what it spells.
pub fn bodies_are_spelled()
    ensures { (bytes : List ℕ) (b : Body) → AreBytes bytes → body_of bytes ≡ Some b → IsBody b × (bytes ≡ body_bytes b) }
{}
