//! Laws of pages and rows, for the proofs of the crates above. Each is the contract of an empty function.
ghost use Rattle.fast_recovery.specs.BrokenRows.{BrokenRowsAreNotWhole};
ghost use Rattle.fast_recovery.specs.KeepingPages.{RecordsKeepPages};

/// Where a row is broken, pages and rows are no well formed ones.
pub fn broken_rows_are_not_whole()
    ensures { BrokenRowsAreNotWhole }
{}

/// Pages and rows that can stand in a list of pages, also after a ROLLBACK, still can after a record in its place.
pub fn records_keep_pages()
    ensures { RecordsKeepPages }
{}
