//! Reading a script to its end.
ghost use Rattle.std.specs.Prelude.{◌≡◌, ◌≤◌, ◌<◌, ◌+◌, ◌^◌, ◌++◌, [], length, OnOk, IfOk};
ghost use Rattle.ids_outside.specs.Counts.{Rose};

use ids_outside::Source;
use std::alloc::{AllocError, Global};
use thiserror::Error;

/// The bytes that a script has at most.
pub const MOST_BYTES: usize = 67108864;

// The bytes that are asked for at once.
const PIECE: usize = 65536;

/// Why no script was read.
#[derive(Clone, Copy, Debug, PartialEq, Eq, Drop, Error)]
pub enum ReadFault {
    #[error("the source failed")]
    Source,
    #[error("the source gave more than 67108864 bytes")]
    TooLong,
    #[error("out of memory")]
    Memory,
}

// Reads once, and puts what came behind the bytes read before; 0 is the end.
fn read_more<S: Source>(
    source: &mut S,
    piece: &mut [u8],
    bytes: &mut Vec<u8>,
) -> Result<usize, ReadFault>
    requires { 0 < length piece.old }
    ensures all { IfOk result (λ n. S.tells → bytes.old.items ++ S.left source.old ≡ bytes.new.items ++ S.left source.new) }
    ensures count { IfOk result (λ n. (length bytes.new.items ≡ length bytes.old.items + n) × (n ≤ length piece.old)) }
    ensures the_end { IfOk result (λ n. n ≡ 0 → S.tells → S.left source.new ≡ []) }
    ensures not_long { ¬ (result ≡ Err ReadFault.TooLong) }
    ensures later { S.fault_count source.old ≤ S.fault_count source.new }
    ensures cause { result ≡ Err ReadFault.Source → Rose (S.fault_count source.old) (S.fault_count source.new) }
{
    let Ok(count) = source.read(piece) else {
        return Err(ReadFault::Source);
    };
    match bytes.extend_from_slice(&piece[..count]) {
        Ok(()) => Ok(count),
        Err(_) => Err(ReadFault::Memory),
    }
}

// Reads to the end, at most one byte more than `most`, by pieces of the given size.
fn read_to_end<S: Source>(
    source: &mut S,
    piece: &mut [u8],
    bytes: &mut Vec<u8>,
    most: usize,
) -> Result<(), ReadFault>
    requires piece { 0 < length piece.old }
    requires empty { bytes.old.items ≡ [] }
    requires most { most < 2 ^ 63 }
    ensures whole { OnOk result (S.tells → S.left source.old ≡ bytes.new.items) }
    ensures short { OnOk result (length bytes.new.items ≤ most) }
    ensures too_long { result ≡ Err ReadFault.TooLong → S.tells → most < length (S.left source.old) }
    ensures later { S.fault_count source.old ≤ S.fault_count source.new }
    ensures cause { result ≡ Err ReadFault.Source → Rose (S.fault_count source.old) (S.fault_count source.new) }
{
    while bytes.len() <= most {
        let room = piece.len().min(most + 1 - bytes.len());
        match read_more(source, &mut piece[..room], bytes) {
            Ok(0) => return Ok(()),
            Ok(_) => {}
            Err(fault) => return Err(fault),
        }
    }
    Err(ReadFault::TooLong)
}

// So many bytes that are zero.
fn zeros(alloc: Global, count: usize) -> Result<Vec<u8>, AllocError>
    ensures { IfOk result (λ bytes. length bytes.items ≡ count) }
{
    vec![in alloc; 0; count]
}

/// Reads a source to its end. `TooLong` comes exactly where it gives more than 67108864 bytes, of which the first 67108865
/// are read; `Source` comes only where the source failed. Each byte is copied once into the answer, which grows by doubling.
pub fn read_script<S: Source>(alloc: Global, source: &mut S) -> Result<Vec<u8>, ReadFault>
    ensures whole { IfOk result (λ bytes. S.tells → S.left source.old ≡ bytes.items) }
    ensures short { IfOk result (λ bytes. length bytes.items ≤ MOST_BYTES) }
    ensures too_long { result ≡ Err ReadFault.TooLong → S.tells → MOST_BYTES < length (S.left source.old) }
    ensures later { S.fault_count source.old ≤ S.fault_count source.new }
    ensures cause { result ≡ Err ReadFault.Source → Rose (S.fault_count source.old) (S.fault_count source.new) }
{
    let mut bytes = Vec::new(alloc);
    let Ok(mut piece) = zeros(alloc, PIECE) else {
        return Err(ReadFault::Memory);
    };
    match read_to_end(source, &mut piece, &mut bytes, MOST_BYTES) {
        Ok(()) => Ok(bytes),
        Err(fault) => Err(fault),
    }
}
