//! What a class of processors is asked to do.

/// One piece of disk work.
#[derive(Clone, Copy, PartialEq, Eq, Debug)]
pub enum IoRequest {
    /// Flush the log buffer.
    LogFlush,
    /// Clear the next log file.
    ClearFile,
    /// Flush the physical log's buffer.
    PhysFlush,
    /// Read the data page of this number.
    Page(u32),
    /// Write the page in this frame.
    Clean(u32),
    /// Go on with the checkpoint.
    Checkpoint,
}
