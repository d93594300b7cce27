// Plain work on chunks in memory.
ghost use Rattle.std.specs.Prelude.{◌≡◌, ◌<◌, ◌≤◌, ◌+◌, ◌-◌, ◌*◌, ℕ, length, slice_index, map, replicate, IfOk, OnOk, OnErr, IsTrue};
ghost use Rattle.ids_outside.specs.Images.{chunk_of, bytes_of};
ghost use Rattle.ids_outside.specs.MemoryDisk.{images, nine, put, overlay, overlaid, extended, IsMemoryImage};

use ids_base::numbers::PAGE_BYTES;
use std::alloc::{AllocError, Global};

// The chunks of a disk.
pub const CHUNKS: usize = 9;

/// Whether a disk in memory may have this image: at most nine chunks, each of whole pages, whose number has 32 bits.
pub fn is_image(image: &Vec<Vec<u8>>) -> bool
    ensures whole { IsTrue result → IsMemoryImage (images image.now.items) }
    ensures told { IsMemoryImage (images image.now.items) → IsTrue result }
{
    if image.len() > CHUNKS {
        return false;
    }
    for chunk in image {
        let count = chunk.len() / PAGE_BYTES;
        if chunk.len() != PAGE_BYTES * count {
            return false;
        }
        if count > u32::MAX as usize {
            return false;
        }
    }
    true
}

// A chunk of so many zero pages for each number.
pub fn zeros(alloc: Global, pages: &[u32]) -> Result<Vec<Vec<u8>>, AllocError>
    ensures { IfOk result (λ v. images v.items ≡ map (λ p. replicate (2048 * p) 0) pages.now) }
{
    let mut chunks = Vec::new(alloc);
    for count in pages {
        chunks.push(vec![in alloc; 0; PAGE_BYTES * *count as usize]?)?;
    }
    Ok(chunks)
}

// The same bytes in memory of their own.
pub fn copied(alloc: Global, image: &Vec<Vec<u8>>) -> Result<Vec<Vec<u8>>, AllocError>
    ensures { IfOk result (λ v. images v.items ≡ images image.now.items) }
{
    let mut copy = Vec::new(alloc);
    for chunk in image {
        copy.push(chunk.as_slice().to_vec(alloc)?)?;
    }
    Ok(copy)
}

// Adds empty chunks up to nine.
pub fn pad(alloc: Global, image: &mut Vec<Vec<u8>>) -> Result<(), AllocError>
    requires { length image.old.items ≤ 9 }
    ensures same { nine (images image.new.items) ≡ nine (images image.old.items) }
    ensures few { length image.new.items ≤ 9 }
    ensures full { OnOk result (length image.new.items ≡ 9) }
{
    for _count in image.len()..CHUNKS {
        image.push(Vec::new(alloc))?;
    }
    Ok(())
}

// Reads a range of a chunk.
pub fn read(image: &Vec<Vec<u8>>, chunk: usize, at: usize, into: &mut [u8])
    requires { at + length into.old ≤ length (chunk_of (images image.now.items) chunk) }
    ensures { into.new ≡ bytes_of (images image.now.items) chunk at (length into.old) }
{
    if chunk < image.len() {
        let source = &image[chunk];
        let room = source.len() - at;
        let end = source.len() - (room - into.len());
        into.copy_from_slice(&source[at..end]);
    }
}

// Writes over the part of a range that the chunk has.
pub fn write(image: &mut Vec<Vec<u8>>, chunk: usize, at: usize, bytes: &[u8])
    ensures { images image.new.items ≡ put (images image.old.items) chunk at bytes.now }
{
    if chunk < image.len() {
        write_chunk(&mut image[chunk], at, bytes);
    }
}

fn write_chunk(chunk: &mut [u8], at: usize, bytes: &[u8])
    ensures { chunk.new ≡ overlay at (length bytes.now) chunk.old (λ i. slice_index bytes.now (i - at)) }
{
    if at >= chunk.len() {
        return;
    }
    let count = bytes.len().min(chunk.len() - at);
    chunk[at..at + count].copy_from_slice(&bytes[..count]);
}

// Fills the part of a range that the chunk has with a byte.
pub fn fill(image: &mut Vec<Vec<u8>>, chunk: usize, at: usize, len: usize, byte: u8)
    ensures { images image.new.items ≡ overlaid (images image.old.items) chunk at len (λ i. byte) }
{
    if chunk < image.len() {
        fill_chunk(&mut image[chunk], at, len, byte);
    }
}

fn fill_chunk(chunk: &mut [u8], at: usize, len: usize, byte: u8)
    ensures { chunk.new ≡ overlay at len chunk.old (λ i. byte) }
{
    if at >= chunk.len() {
        return;
    }
    let count = len.min(chunk.len() - at);
    chunk[at..at + count].fill(byte);
}

// Makes a chunk at least so many pages long, the new ones filled with a byte.
pub fn extend(
    image: &mut Vec<Vec<u8>>,
    chunk: usize,
    pages: u32,
    byte: u8,
) -> Result<(), AllocError>
    ensures done { OnOk result (images image.new.items ≡ extended (images image.old.items) chunk pages byte) }
    ensures refused { OnErr result (images image.new.items ≡ images image.old.items) }
    ensures count { length image.new.items ≡ length image.old.items }
{
    if chunk >= image.len() {
        return Ok(());
    }
    let target = &mut image[chunk];
    let wanted = PAGE_BYTES * pages as usize;
    if target.len() >= wanted {
        return Ok(());
    }
    if target.resize(wanted, byte).is_err() {
        return Err(AllocError);
    }
    Ok(())
}
