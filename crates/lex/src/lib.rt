// The ground of the leaves: an answer, a byte, and the tests for one, two or more bytes.
#![tactic(auto)]

ghost use Rattle.std.specs.Prelude.{◌≡◌, [], ◌∷◌, ◌+◌, ◌^◌, ◌<◌, ◌≤◌, length};
ghost use Rattle.rules.specs.Parse.{byte_at, opens};
ghost use Rattle.jsx.specs.Byte.{◌‥◌, need};
ghost use Rattle.jsx.specs.Name.{same};
ghost use Rattle.lex.specs.Answer.{refused, said};
ghost use Rattle.lex.specs.Contract.{Leaf, nothing, expect_byte, bytes_from};

use bytes::END;
use refusal::{Reason, Refusal};

pub mod bytes;
pub mod kind;
pub mod numbered;
pub mod refusal;
mod words;

// The byte at a place, 256 at the end.
pub fn byte(s: &[u8], at: usize) -> u32
    ensures { result ≡ byte_at s.now at }
{
    if at < s.len() { u32::from(s[at]) } else { END }
}

// From lo to hi, both included.
pub fn within(b: u32, lo: u32, hi: u32) -> bool
    ensures { result ≡ (lo ‥ hi) b }
{
    (lo..=hi).contains(&b)
}

// Something is needed here and does not begin here: 4 at the end, 3 elsewhere. (The Rust's `unexpected`.)
pub fn unexpected(s: &[u8], at: usize) -> Refusal
    ensures { Leaf nothing (refused result) s.now need at 0 }
{
    let b = byte(s, at);
    if b == END {
        Reason::EndOfInput.at(at)
    } else {
        Reason::Unexpected.at(at)
    }
}

// Past this byte, and no other. (The Rust's `expect`.)
pub fn expect(s: &[u8], at: usize, b: u32) -> Result<usize, Refusal>
    requires { (b < 256) × (at ≤ length s.now) }
    ensures { Leaf nothing (said result) s.now (expect_byte b) at 1 }
{
    if byte(s, at) == b {
        Ok(at + 1)
    } else {
        Err(unexpected(s, at))
    }
}

// Whether the bytes a and b stand at a place.
pub fn two_at(s: &[u8], at: usize, a: u32, b: u32) -> bool
    requires { at ≤ length s.now }
    ensures { result ≡ opens s.now (a ∷ b ∷ []) at }
{
    byte(s, at) == a && byte(s, at + 1) == b
}

// Whether the bytes a, b and c stand at a place.
pub fn three_at(s: &[u8], at: usize, a: u32, b: u32, c: u32) -> bool
    requires { (a < 256) × (at ≤ length s.now) }
    ensures { result ≡ opens s.now (a ∷ b ∷ c ∷ []) at }
{
    byte(s, at) == a && two_at(s, at + 1, b, c)
}

// Whether the n bytes from k on in t and from a on in s are the same.
pub fn same_at(t: &[u8], k: usize, s: &[u8], a: usize, n: usize) -> bool
    requires { (k + n < 2 ^ 63) × (a + n ≤ length s.now) }
    ensures { result ≡ same (bytes_from t.now k n) (bytes_from s.now a n) }
{
    for i in 0..n {
        if byte(t, k + i) != byte(s, a + i) {
            return false;
        }
    }
    true
}
