//! Numbers in the bodies of pages, the high byte first.
ghost use Rattle.std.specs.Prelude.{◌≡◌, ◌<◌, ◌≤◌, ◌+◌, ◌-◌, ◌^◌, ◌++◌, ℕ, List, length};
ghost use Rattle.std.specs.Int.{w16, w32, w64, to_be_bytes};
ghost use Rattle.chunk_map.specs.Layouts.{zeros};

/// Puts bytes at a place; a body that is zero from there on is zero behind them.
pub fn put(body: &mut [u8; 2047], at: usize, bytes: &[u8])
    requires { at + length bytes.now ≤ 2047 }
    ensures { (front : List ℕ) → length front ≡ at → body.old ≡ front ++ zeros (2047 - at)
        → body.new ≡ (front ++ bytes.now) ++ zeros (2047 - (at + length bytes.now)) }
{
    body[at..at + bytes.len()].copy_from_slice(bytes);
}

/// The number of 16 bits at a place.
pub fn u16_at(body: &[u8; 2047], at: usize) -> u16
    requires { at + 2 ≤ 2047 }
    ensures { (front rest : List ℕ) (n : ℕ) → n < 2 ^ 16 → length front ≡ at → body.now ≡ front ++ (to_be_bytes w16 n ++ rest) → result ≡ n }
{
    u16::from_be_bytes([body[at], body[at + 1]])
}

/// The number of 32 bits at a place.
pub fn u32_at(body: &[u8; 2047], at: usize) -> u32
    requires { at + 4 ≤ 2047 }
    ensures { (front rest : List ℕ) (n : ℕ) → n < 2 ^ 32 → length front ≡ at → body.now ≡ front ++ (to_be_bytes w32 n ++ rest) → result ≡ n }
{
    u32::from_be_bytes([body[at], body[at + 1], body[at + 2], body[at + 3]])
}

/// The number of 64 bits at a place.
pub fn u64_at(body: &[u8; 2047], at: usize) -> u64
    requires { at + 8 ≤ 2047 }
    ensures { (front rest : List ℕ) (n : ℕ) → n < 2 ^ 64 → length front ≡ at → body.now ≡ front ++ (to_be_bytes w64 n ++ rest) → result ≡ n }
{
    u64::from_be_bytes([
        body[at],
        body[at + 1],
        body[at + 2],
        body[at + 3],
        body[at + 4],
        body[at + 5],
        body[at + 6],
        body[at + 7],
    ])
}
