//! The bytes of a log block's body, all but the block's last byte.
//!
//! | Bytes | What |
//! |---|---|
//! | 0 to 8 | the number of the block |
//! | 8 to 10 | how many bytes the records take, at least 11 |
//! | 10 to 12 | how many records there are, at least 1 |
//! | 12 to 2016 | the records, one after another, then zero |
//! | 2016 to 2047 | zero |
//!
//! Numbers stand with the highest byte first.
ghost use Rattle.std.specs.Prelude.{◌≡◌, ◌≢◌, ◌≤◌, length, IfSome, IfNone};
ghost use Rattle.log_records.specs.Bodies.{Body, IsBody, body_bytes, body_of};

use crate::block_body::BlockBody;
use crate::reading::{u16_at, u64_at};
use crate::writing::{put_bytes, put_u16, put_u64};

/// Writes the bytes of a body. Takes no memory.
#[tactic(auto, unfolding(crate::specs::Bodies::body_bytes))]
pub fn body_to_bytes(body: &BlockBody, into: &mut [u8; 2047])
    requires { 1 ≤ length body.now.entries }
    ensures bytes { into.new ≡ body_bytes body.now }
    // So these bytes are read as the body again.
    ensures body { IsBody body.now }
{
    let at = put_u64(into, 0, body.number());
    let at = put_u16(into, at, body.used());
    let at = put_u16(into, at, body.count());
    let at = put_bytes(into, at, body.record_bytes());
    into[at..].fill(0);
}

/// The body that the bytes spell; `None` exactly where they spell none. Takes no memory; linear.
#[tactic(auto, unfolding(crate::specs::Bodies::body_of))]
fn read(bytes: &[u8]) -> Option<BlockBody>
    ensures { result ≡ body_of bytes.now }
{
    let (number, rest) = u64_at(bytes)?;
    let (used, rest) = u16_at(rest)?;
    let (count, rest) = u16_at(rest)?;
    BlockBody::from_records(number, used, count, rest)
}

/// The body that the bytes spell; `None` exactly where they spell none. Takes no memory; linear.
pub fn body_from_bytes(bytes: &[u8; 2047]) -> Option<BlockBody>
    ensures read { result ≡ body_of bytes.now }
    // What is read is spelled so.
    ensures found { IfSome result (λ b. IsBody b × (bytes.now ≡ body_bytes b)) }
    // What is spelled so is read.
    ensures none { IfNone result ((b : Body) → IsBody b → bytes.now ≢ body_bytes b) }
{
    read(bytes)
}
