//! Bytes and pages say the same.
ghost use Rattle.std.specs.Prelude.{◌≡◌, ℕ, List, Some};
ghost use Rattle.slot_page.specs.Pages.{Paged, IsPage, AreBytes, page_bytes};
ghost use Rattle.slot_page.specs.Reading.{page_of};

/// What a page is spelled by is read as that page.
pub fn pages_are_read()
    ensures { (p : Paged) → IsPage p → page_of (page_bytes p) ≡ Some p }
{}

/// Bytes that are read as a page are the spelling of that page: a page has one spelling.
pub fn pages_are_spelled()
    ensures { (bytes : List ℕ) (p : Paged) → page_of bytes ≡ Some p → AreBytes bytes
        → IsPage p × (bytes ≡ page_bytes p) }
{}
