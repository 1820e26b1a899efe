// A refusal in words: its line and its column, what is wrong, the source under it, and marks.

ghost use Rattle.std.specs.Prelude.{◌≤◌, length};

use lex::refusal::{Reason, Refusal, Span};
use line::Line;
use std::fmt::{Display, Write};

// The bytes of a line that are shown at most.
const SHOWN: usize = 144;

// One of a closing tag says where that is, then where the element or the fragment was opened.
pub(crate) fn print(s: &[u8], refusal: Refusal) {
    match refusal.reason {
        Reason::TooLong | Reason::TableTooSmall => print_without_place(refusal),
        Reason::NotUtf8 => print_at(s, refusal.first, refusal.first.start, refusal),
        Reason::NamesDiffer | Reason::FragmentClosedByName | Reason::ElementClosedByFragment => {
            print_at(s, refusal.second, s.len(), refusal);
            print_at(s, refusal.first, s.len(), "opened here");
        }
        _ => print_at(s, refusal.first, s.len(), refusal),
    }
}

// A refusal of the input as a whole.
fn print_without_place(refusal: Refusal) {
    let mut line = Line::new();
    let _ = write!(line, "1:1: {refusal}");
    line.print();
}

// A message at a place, with the source under it. From `good` on the source's bytes may be no characters.
fn print_at<D: Display + Drop>(s: &[u8], at: Span, good: usize, message: D) {
    let start = at.start.min(s.len());
    let place = spot::spot(s, start);
    let mut line = Line::new();
    let _ = write!(line, "{}:{}: {message}", place.line, place.column);
    line.print();
    print_source(s, place.start, Span { start, end: at.end }, good);
}

// The source line of a place, or what of it is near the place, and marks under the place.
fn print_source(s: &[u8], begin: usize, at: Span, good: usize)
    requires { (begin ≤ at.start) × (at.start ≤ length s.now) }
{
    let end = spot::line_end(s, at.start);
    let from = line::window_start(s, begin, at.start);
    let to = line::window_end(s, from, end, SHOWN);
    let good = good.clamp(from, to);
    let mut line = Line::new();
    if begin < from {
        line.literal(b"..");
    }
    line.source(&s[from..good]);
    line.broken_source(&s[good..to]);
    if to < end {
        line.literal(b"..");
    }
    line.print();
    let mut under = Line::new();
    if begin < from {
        under.literal(b"  ");
    }
    under.blanks(&s[from..at.start]);
    under.marks(&s[at.start..at.end.min(to).max(at.start)]);
    under.print();
}
