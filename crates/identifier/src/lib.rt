// Which characters beyond ASCII names are made of, by their codes: ID_Start and ID_Continue of Unicode.
#![tactic(auto)]

ghost use Rattle.std.specs.Prelude.{◌≡◌, true};
ghost use Rattle.jsx.specs.Byte.{is, ◌or◌};
ghost use Rattle.jsx.specs.Ranges.{start_ranges, continue_ranges};
ghost use Rattle.jsx.specs.Unicode.{in_ranges, ordered_from};
ghost use Rattle.identifier.specs.Script.{greek, european, east_asian, common, gap};
ghost use Rattle.identifier.specs.Table.{flat};

use ranges::{CONTINUE, START};
use std::cmp::Ordering;

pub mod ranges;

const ZERO_WIDTH_NON_JOINER: u32 = 0x200C;

const ZERO_WIDTH_JOINER: u32 = 0x200D;

// Letters of Latin stand before it, those of Greek in it, and those of Cyrillic behind it.
const GREEK_BLOCK: u32 = 0x370;

// Letters of Greek from Σ (U+03A3) on.
#[tactic(auto, unfolding(crate::specs::Script::greek))]
fn is_greek(c: u32) -> bool
    ensures { result ≡ greek c }
{
    lex::within(c, 0x3A3, 0x3F5)
}

// Letters of Latin and Cyrillic, and those of Greek before Σ. Chains of `within`: `matches!` of the same ranges takes 1.2
// to 3 times as long here and in `is_gap`.
#[tactic(auto, unfolding(crate::specs::Script::european))]
fn is_european(c: u32) -> bool
    ensures { result ≡ european c }
{
    if c < GREEK_BLOCK {
        lex::within(c, 0xF8, 0x2C1) || lex::within(c, 0xD8, 0xF6) || lex::within(c, 0xC0, 0xD6)
    } else {
        lex::within(c, 0x38E, 0x3A1)
            || lex::within(c, 0x388, 0x38A)
            || c == 0x386
            || c == 0x38C
            || lex::within(c, 0x3F7, 0x481)
            || lex::within(c, 0x48A, 0x52F)
    }
}

// Hangul, and most of Han, Hiragana and Katakana.
#[tactic(auto, unfolding(crate::specs::Script::east_asian))]
fn is_east_asian(c: u32) -> bool
    ensures { result ≡ east_asian c }
{
    lex::within(c, 0xAC00, 0xD7A3)
        || lex::within(c, 0x4E00, 0xA48C)
        || lex::within(c, 0x3041, 0x3096)
        || lex::within(c, 0x30A1, 0x30FA)
}

// A character between names: a blank beyond ASCII, but for U+1680, or a neighbour of it. No table is searched for it.
#[tactic(auto, unfolding(crate::specs::Script::gap))]
pub fn is_gap(c: u32) -> bool
    ensures { result ≡ gap c }
{
    lex::within(c, 0x80, 0xA9)
        || lex::within(c, 0x2000, 0x200B)
        || lex::within(c, 0x200E, 0x203E)
        || lex::within(c, 0x2E00, 0x3004)
        || lex::within(c, 0xFEFD, 0xFF0F)
}

// A letter of a common script: no table is searched for it.
#[tactic(auto, unfolding(crate::specs::Script::common))]
pub fn is_common(c: u32) -> bool
    ensures { result ≡ common c }
{
    is_greek(c) || is_east_asian(c) || is_european(c)
}

// Whether a code stands in a table of ranges.
fn in_ranges(r: &[(u32, u32)], c: u32) -> bool
    requires { ordered_from 0x80 (flat r.now) ≡ true }
    ensures { result ≡ in_ranges (flat r.now) c }
{
    r.binary_search_by(|&(first, last)| {
        if c < first {
            Ordering::Greater
        } else if last < c {
            Ordering::Less
        } else {
            Ordering::Equal
        }
    })
    .is_ok()
}

// ID_Start beyond ASCII.
pub fn is_identifier_start_unicode(c: u32) -> bool
    ensures { result ≡ in_ranges start_ranges c }
{
    is_common(c) || in_ranges(&START, c)
}

// ID_Continue beyond ASCII, U+200C or U+200D.
pub fn is_identifier_part_unicode(c: u32) -> bool
    ensures { result ≡ (in_ranges continue_ranges or is "\u{200c}" or is "\u{200d}") c }
{
    in_ranges(&CONTINUE, c) || c == ZERO_WIDTH_NON_JOINER || c == ZERO_WIDTH_JOINER
}
