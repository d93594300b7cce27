//! Runs of `server` that tests look at.

use ids_outside::{Disk, MemDisk, MemSink, MemSource, OpenGate, Source};
use ids_server::server::{Ended, server};
use std::alloc::Global;
use std::test::Fail;

/// What a run over a disk in memory leaves.
pub(crate) type Run = Ended<MemDisk, MemSink>;

/// Runs a word over a disk, the script of a source, and a sink whose listed calls fail.
pub(crate) fn run_from<D: Disk + Drop + Send, S: Source>(
    alloc: Global,
    word: &str,
    source: &mut S,
    disk: D,
    sink_fails: &[u64],
) -> Result<Ended<D, MemSink>, Fail> {
    let mut words = Vec::new(alloc);
    words.push(String::from_str(alloc, word)?)?;
    let sink = MemSink::new(alloc, sink_fails.to_vec(alloc)?);
    Ok(server(alloc, words.as_slice(), source, disk, sink, &OpenGate))
}

/// Runs a word with a script over a disk, where nothing fails.
pub(crate) fn run_word<D: Disk + Drop + Send>(
    alloc: Global,
    word: &str,
    disk: D,
    script: &[u8],
) -> Result<Ended<D, MemSink>, Fail> {
    let mut source = MemSource::new(script.to_vec(alloc)?, Vec::new(alloc));
    run_from(alloc, word, &mut source, disk, &[])
}

/// Runs a script over a disk, where nothing fails.
pub(crate) fn run(alloc: Global, disk: MemDisk, script: &[u8]) -> Result<Run, Fail> {
    run_word(alloc, "run", disk, script)
}
