// The first byte of a kind from a place on: eight bytes at once, as the lanes of one word. (Request 2.)
#![tactic(auto)]

ghost use Rattle.std.specs.Prelude.{◌+◌, ◌≤◌, length, MatchOption};
ghost use Rattle.lanes.specs.First.{Clear, First};

use sought::Sought;
pub use words::{beyond_ascii, word};

pub mod sought;
mod words;

// The first byte that is sought of the eight from p on.
fn find_in_word<S: Sought>(s: &[u8], p: usize, sought: S) -> Option<usize>
    requires { p + 8 ≤ length s.now }
    ensures { MatchOption result (Clear (S.test sought) s.now p (p + 8)) (λ q. First (S.test sought) s.now p q) }
{
    let marks = sought.marks(word(s, p));
    if marks == 0 {
        return None;
    }
    Some(p + (marks.trailing_zeros() / 8) as usize)
}

// The first byte that is sought from here on, or the end: byte by byte.
fn find_by_bytes<S: Sought>(s: &[u8], at: usize, sought: S) -> usize
    requires { at ≤ length s.now }
    ensures { First (S.test sought) s.now at result }
{
    for p in at..s.len() {
        if sought.has(s[p]) {
            return p;
        }
    }
    s.len()
}

// The same by one word, if eight bytes are left, and then by bytes.
fn find_by_word<S: Sought>(s: &[u8], at: usize, sought: S) -> usize
    requires { at ≤ length s.now }
    ensures { First (S.test sought) s.now at result }
{
    let end = at + 8;
    if s.len() < end {
        return find_by_bytes(s, at, sought);
    }
    match find_in_word(s, at, sought) {
        Some(p) => p,
        None => find_by_bytes(s, end, sought),
    }
}

// The same by words. (A `for` counts the turns beside the place: measured, here and by pairs, short scans took 1.2 of
// the time.)
fn find_by_words<S: Sought>(s: &[u8], at: usize, sought: S) -> usize
    requires { at ≤ length s.now }
    ensures { First (S.test sought) s.now at result }
{
    let mut p = at;
    while p + 8 <= s.len() {
        if let Some(q) = find_in_word(s, p, sought) {
            return q;
        }
        p = p + 8;
    }
    find_by_bytes(s, p, sought)
}

// The same by pairs of words. (By words and by pairs as one function, over how many words a turn has: measured, long
// scans took 1.2 to 1.4 of the time.)
fn find_by_pairs<S: Sought>(s: &[u8], at: usize, sought: S) -> usize
    requires { at ≤ length s.now }
    ensures { First (S.test sought) s.now at result }
{
    let mut p = at;
    while p + 16 <= s.len() {
        if let Some(q) = find_in_word(s, p, sought) {
            return q;
        }
        if let Some(q) = find_in_word(s, p + 8, sought) {
            return q;
        }
        p = p + 16;
    }
    find_by_word(s, p, sought)
}

// The first byte that is sought from here on, or the end.
pub fn find<S: Sought>(s: &[u8], at: usize, sought: S) -> usize
    requires { at ≤ length s.now }
    ensures { First (S.test sought) s.now at result }
{
    if S::PAIRS {
        find_by_pairs(s, at, sought)
    } else {
        find_by_words(s, at, sought)
    }
}
