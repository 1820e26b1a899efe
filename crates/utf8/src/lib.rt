// The UTF-8 test of document 01: each byte is looked at once, sixteen and eight at once where all are below 80 hex.
#![tactic(auto)]

ghost use Rattle.std.specs.Prelude.{◌≡◌, ◌<◌, length};
ghost use Rattle.rules.specs.Parse.{byte_at};
ghost use Rattle.jsx.specs.Byte.{◌‥◌};
ghost use Rattle.jsx.specs.Utf8.{utf8 as utf8_rule};
ghost use Rattle.lex.specs.Answer.{said};
ghost use Rattle.lex.specs.Contract.{Leaf, nothing};
ghost use Rattle.utf8.specs.Lead.{lead_of, Ended};

use lanes::sought::Beyond;
use lex::refusal::{Reason, Refusal};

// What a lead byte says of the sequence that it begins.
#[derive(Clone, Copy)]
enum Lead {
    // The byte alone.
    Alone,
    // The sequence's length, and the bounds of its second byte.
    Of(usize, u8, u8),
}

// Document 01's table of lead bytes; no good sequence begins with any other.
fn lead_of(b: u8) -> Option<Lead>
    ensures { result ≡ lead_of b }
{
    match b {
        0x00..=0x7F => Some(Lead::Alone),
        0xC2..=0xDF => Some(Lead::Of(2, 0x80, 0xBF)),
        0xE0 => Some(Lead::Of(3, 0xA0, 0xBF)),
        0xE1..=0xEC | 0xEE..=0xEF => Some(Lead::Of(3, 0x80, 0xBF)),
        0xED => Some(Lead::Of(3, 0x80, 0x9F)),
        0xF0 => Some(Lead::Of(4, 0x90, 0xBF)),
        0xF1..=0xF3 => Some(Lead::Of(4, 0x80, 0xBF)),
        0xF4 => Some(Lead::Of(4, 0x80, 0x8F)),
        _ => None,
    }
}

// Whether a byte from lo to hi stands at a place.
fn within(s: &[u8], at: usize, lo: u8, hi: u8) -> bool
    ensures { result ≡ (lo ‥ hi) (byte_at s.now at) }
{
    at < s.len() && (lo..=hi).contains(&s[at])
}

// The end of the sequence whose lead byte b stands at p, if a good one begins there.
fn sequence(s: &[u8], p: usize, b: u8) -> Option<usize>
    requires { (p < length s.now) × (byte_at s.now p ≡ b) }
    ensures { Ended result s.now p }
{
    match lead_of(b) {
        None => None,
        Some(Lead::Alone) => Some(p + 1),
        Some(Lead::Of(n, lo, hi)) => {
            if !within(s, p + 1, lo, hi) {
                return None;
            }
            if n == 2 {
                return Some(p + 2);
            }
            if !within(s, p + 2, 0x80, 0xBF) {
                return None;
            }
            if n == 3 {
                return Some(p + 3);
            }
            if !within(s, p + 3, 0x80, 0xBF) {
                return None;
            }
            Some(p + 4)
        }
    }
}

// The length of an input that is UTF-8; or refusal 2 where no good sequence begins.
pub fn utf8(s: &[u8]) -> Result<usize, Refusal>
    ensures { Leaf nothing (said result) s.now utf8_rule 0 0 }
{
    let mut p = 0;
    while p < s.len() {
        let b = s[p];
        if b < 0x80 {
            // One byte of ASCII alone, as a blank between words beyond it, is not worth a look ahead.
            if lex::byte(s, p + 1) < 0x80 {
                p = lanes::find(s, p + 2, Beyond);
                continue;
            }
            p = p + 1;
            continue;
        }
        let Some(end) = sequence(s, p, b) else {
            return Err(Reason::NotUtf8.at(p));
        };
        p = end;
    }
    Ok(p)
}
