// Eight bytes as the lanes of one word, the first byte in the lowest lane.

ghost use Rattle.std.specs.Prelude.{◌≡◌, ◌+◌, ◌≤◌, length};
ghost use Rattle.lanes.specs.Lanes.{word_of, Marked, Cleared, beyond, only};

// The high bit of each lane.
const HIGH: u64 = 0x8080808080808080;

// The other bits of each lane.
const LOW: u64 = 0x7F7F7F7F7F7F7F7F;

// Every bit of each lane.
pub const ALL: u64 = 0xFFFFFFFFFFFFFFFF;

// 1 in each lane: a byte times this stands in each lane.
const ONES: u64 = 0x0101010101010101;

// The eight bytes from p on: compiled to one load.
pub fn word(s: &[u8], p: usize) -> u64
    requires { p + 8 ≤ length s.now }
    ensures { result ≡ word_of s.now p 8 }
{
    u64::from_le_bytes([
        s[p],
        s[p + 1],
        s[p + 2],
        s[p + 3],
        s[p + 4],
        s[p + 5],
        s[p + 6],
        s[p + 7],
    ])
}

// The lanes whose byte is beyond ASCII.
pub fn beyond_ascii(w: u64) -> u64
    ensures { Marked beyond w result }
{
    w & HIGH
}

// The high bit is clear in the lanes that are 0, every other bit is set: no sum leaves its lane.
fn clear_zeros(x: u64) -> u64
    ensures { Cleared (only 0) x result }
{
    (((x & LOW) + LOW) | x) | LOW
}

// The high bit is clear in the lanes whose byte is a, every other bit is set.
pub fn clear_equal(w: u64, a: u8) -> u64
    ensures { Cleared (only a) w result }
{
    clear_zeros(w ^ u64::from(a) * ONES)
}
