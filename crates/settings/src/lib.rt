// A settings store, and the limits that it sets; limits that are given to a reading. Document 02, request 14.
#![tactic(auto)]

ghost use Rattle.std.specs.Prelude.{ℕ, ◌≡◌, ◌<◌, ◌^◌};
ghost use Rattle.rules.specs.Parse.{byte_at};
ghost use Rattle.jsx.specs.Reading.{standard as standard_limits};
ghost use Rattle.jsx.specs.Settings.{settings as settings_of, held as held_behind, capped as capped_limits};
ghost use Rattle.jsx.specs.Settings.{other_than, marks_other, size_of, is_cut, judged};
ghost use Rattle.settings.specs.Contract.{settled_by, limits_of, settled_of, depth_if_good, length_if_good};

use kind::Kind;
use lex::bytes::END;
use refusal::StoreRefusal;

mod kind;
pub mod refusal;

// The most bytes of an input, and the most levels of depth.
pub const MOST_BYTES: usize = 1_048_576;

pub const MOST_DEPTH: usize = 64;

// The mark in front of a record.
const FIRST_MARK: u32 = b'S' as u32;

const SECOND_MARK: u32 = b'T' as u32;

// The bytes of a record in front of its content: the mark, the kind, the length.
const HEAD_BYTES: usize = 4;

// The limits of a reading.
#[derive(Clone, Copy, PartialEq, Eq)]
pub struct Limits {
    pub depth: usize,
    pub bytes: usize,
}

// Document 01's limits.
#[tactic(auto, unfolding(jsx::specs::Reading::standard))]
pub fn standard() -> Limits
    ensures { limits_of result ≡ standard_limits }
{
    Limits {
        depth: MOST_DEPTH,
        bytes: MOST_BYTES,
    }
}

// A limit above document 01's counts as document 01's.
#[tactic(auto, unfolding(jsx::specs::Settings::capped))]
pub fn capped(l: Limits) -> Limits
    ensures { limits_of result ≡ capped_limits (limits_of l) }
{
    Limits {
        depth: l.depth.min(MOST_DEPTH),
        bytes: l.bytes.min(MOST_BYTES),
    }
}

// Whether a byte stands here and is another one.
fn is_other(s: &[u8], at: usize, b: u32) -> bool
    ensures { result ≡ other_than b (byte_at s.now at) }
{
    let c = lex::byte(s, at);
    c != b && c != END
}

// Whether a byte of the mark of the first record is another one.
#[tactic(auto, unfolding(jsx::specs::Settings::marks_other))]
fn marks_other(s: &[u8]) -> bool
    ensures { result ≡ marks_other s.now }
{
    is_other(s, 0, FIRST_MARK) || is_other(s, 1, SECOND_MARK)
}

// The length that the first record announces.
fn size(s: &[u8]) -> usize
    ensures value { result ≡ size_of s.now }
    ensures fits { result < 2 ^ 32 }
{
    lex::byte(s, 3) as usize
}

// Whether the first record is not whole.
#[tactic(auto, unfolding(jsx::specs::Settings::is_cut))]
fn is_cut(s: &[u8]) -> bool
    ensures { result ≡ is_cut s.now }
{
    s.len() < HEAD_BYTES + size(s)
}

// The depth limit that the first record sets, if it is good: one byte, 1 to 64.
#[tactic(auto, unfolding(jsx::specs::Settings::good_depth))]
fn good_depth(s: &[u8]) -> Option<usize>
    ensures { result ≡ depth_if_good s.now }
{
    let [_, _, _, 1, depth, ..] = s else {
        return None;
    };
    let depth = usize::from(*depth);
    (1..=MOST_DEPTH).contains(&depth).then_some(depth)
}

// The length limit that the first record sets, if it is good: four bytes, low byte first, at most 1,048,576.
#[tactic(auto, unfolding(jsx::specs::Settings::good_length))]
fn good_length(s: &[u8]) -> Option<usize>
    ensures { result ≡ length_if_good s.now }
{
    let [_, _, _, 4, a, b, c, d, ..] = s else {
        return None;
    };
    let bytes = u32::from_le_bytes([*a, *b, *c, *d]) as usize;
    (bytes <= MOST_BYTES).then_some(bytes)
}

// What the first record of s, at the place `at` of the store, makes of the limits.
#[tactic(auto, unfolding(jsx::specs::Settings::judged, jsx::specs::Settings::is_cut, jsx::specs::Settings::depth_set, jsx::specs::Settings::length_set))]
fn judge(s: &[u8], at: usize, l: Limits) -> Result<Limits, StoreRefusal>
    ensures { settled_of result ≡ judged at (limits_of l) s.now }
{
    if marks_other(s) {
        return Err(StoreRefusal::WrongMark(at));
    }
    if is_cut(s) {
        return Err(StoreRefusal::CutShort(at));
    }
    let bad = StoreRefusal::BadSetting(at);
    match Kind::try_from(s[2])? {
        Kind::Depth => Ok(Limits {
            depth: good_depth(s).ok_or(bad)?,
            ..l
        }),
        Kind::Length => Ok(Limits {
            bytes: good_length(s).ok_or(bad)?,
            ..l
        }),
        Kind::Skipped => Ok(l),
    }
}

// The limits that a store sets, or its refusal.
pub fn settings(s: &[u8]) -> Result<Limits, StoreRefusal>
    ensures { settled_of result ≡ settings_of s.now }
{
    let mut l = standard();
    let mut at = 0;
    while at < s.len() {
        let rest = &s[at..];
        l = judge(rest, at, l)?;
        at += HEAD_BYTES + size(rest);
    }
    Ok(l)
}

// The limits that hold behind a store: its own, or document 01's where it is refused, whatever refuses it.
#[tactic(auto, unfolding(jsx::specs::Settings::held))]
pub fn held<E: Drop>(r: Result<Limits, E>) -> Limits
    ensures { (n a b : ℕ) → limits_of result ≡ held_behind (settled_by n a b r) }
{
    r.unwrap_or(standard())
}
