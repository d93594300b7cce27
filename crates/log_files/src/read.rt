//! Reading one block.
ghost use Rattle.std.specs.Prelude.{◌≡◌, Some};
ghost use Rattle.log_files.specs.Log.{IsReadIn, first_number};

use log_records::block_body::BlockBody;
use log_records::body_bytes::body_from_bytes;

/// What stands at the place of a block of the log.
#[derive(Drop)]
pub enum BlockRead {
    /// The block counts, with this body.
    Body(BlockBody),
    /// Its gate is open and it has the number that was looked for, and it does not decode: it was damaged, since no stop leaves one.
    Broken,
    /// The block does not count: its gate is closed, or it is another one.
    Absent,
}

// The number that the bytes begin with, the highest byte first.
#[tactic(auto, unfolding(log_records::specs::Reading::number_at))]
fn number_of(bytes: &[u8; 2047]) -> u64
    ensures { first_number bytes.now ≡ Some result }
{
    let (front, _) = bytes.split_at(8);
    u64::from_be_bytes([
        front[0], front[1], front[2], front[3], front[4], front[5], front[6], front[7],
    ])
}

/// What the bytes of an open block say where this number is looked for.
pub(crate) fn read_as(bytes: &[u8; 2047], block: u64) -> BlockRead
    ensures { IsReadIn block bytes.now result }
{
    match body_from_bytes(bytes) {
        Some(body) => {
            if body.number() == block {
                BlockRead::Body(body)
            } else {
                BlockRead::Absent
            }
        }
        None => {
            if number_of(bytes) == block {
                BlockRead::Broken
            } else {
                BlockRead::Absent
            }
        }
    }
}
