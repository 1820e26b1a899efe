// Where a place stands for a person: its line and its column, both from 1, and where its line begins and ends.
#![tactic(auto)]

ghost use Rattle.std.specs.Prelude.{◌≡◌, ◌+◌, ◌≤◌, ◌<◌, ◌^◌, length, IfSome};
ghost use Rattle.std.specs.List.{position_from};
ghost use Rattle.spot.specs.Spot.{ends_line, continues as in_character, spot_at, is_end, LineEnd};

use lex::bytes::{CR, LF};

const CONTINUATION: u32 = 128;

const LEAD: u32 = 192;

// A place's line and column, and the place where the line begins.
#[derive(Clone, Copy, PartialEq, Eq)]
pub struct Place {
    pub line: usize,
    pub column: usize,
    pub start: usize,
}

// Whether a line ends with the byte at a place: LF, or CR with no LF behind it.
#[tactic(auto, unfolding(crate::specs::Spot::ends_line))]
pub fn ends_line(s: &[u8], i: usize) -> bool
    ensures { result ≡ ends_line s.now i }
{
    let b = lex::byte(s, i);
    b == LF || b == CR && lex::byte(s, i + 1) != LF
}

// Whether a byte goes on with the character before it.
#[tactic(auto, unfolding(crate::specs::Spot::continues))]
pub fn continues(b: u32) -> bool
    ensures { result ≡ in_character b }
{
    (CONTINUATION..LEAD).contains(&b)
}

impl Place {
    const FIRST: Place = Place {
        line: 1,
        column: 1,
        start: 0,
    };

    // The spot behind a byte, from the spot in front of it.
    #[tactic(auto, using(crate::proofs::Steps::next_steps), unfolding(crate::specs::Spot::spot_behind))]
    fn past(self, s: &[u8], i: usize) -> Place
        requires { (i < 2 ^ 63) × (self ≡ spot_at s.now i) }
        ensures { result ≡ spot_at s.now (i + 1) }
    {
        if ends_line(s, i) {
            Place {
                line: self.line + 1,
                column: 1,
                start: i + 1,
            }
        } else if continues(lex::byte(s, i)) {
            self
        } else {
            Place {
                column: self.column + 1,
                ..self
            }
        }
    }
}

// The spot of a place.
#[tactic(auto, using(crate::proofs::Steps::line_before), unfolding(crate::specs::Spot::spot_at))]
pub fn spot(s: &[u8], p: usize) -> Place
    requires { p < 2 ^ 63 }
    ensures { (result ≡ spot_at s.now p) × (result.start ≤ p) }
{
    let mut x = Place::FIRST;
    for i in 0..p {
        x = x.past(s, i);
    }
    x
}

// The first byte that ends a line.
fn first_end(s: &[u8]) -> Option<usize>
    ensures first { result ≡ position_from is_end 0 s.now }
    ensures inside { IfSome result (λ i. i < length s.now) }
{
    s.iter().position(|b| *b == b'\n' || *b == b'\r')
}

// The place where the line that holds p ends.
pub fn line_end(s: &[u8], p: usize) -> usize
    requires { p ≤ length s.now }
    ensures { LineEnd result s.now p }
{
    match first_end(&s[p..]) {
        Some(i) => p + i,
        None => s.len(),
    }
}
