// The part of a line of the source that is shown: from a character to a character.

ghost use Rattle.std.specs.Prelude.{◌≤◌};

// The bytes of a line in front of a place that are shown at most.
const BEFORE: usize = 72;

// Whether a character goes on at a place.
fn continues(s: &[u8], i: usize) -> bool {
    spot::continues(lex::byte(s, i))
}

// Where the shown part of a line that begins at `start` begins, so that the place p is in it: at a character.
pub fn window_start(s: &[u8], start: usize, p: usize) -> usize
    requires { start ≤ p }
    ensures { (start ≤ result) × (result ≤ p) }
{
    if p - start <= BEFORE {
        return start;
    }
    (p - BEFORE..p).find(|i| !continues(s, *i)).unwrap_or(p)
}

// Where it ends, in a line that ends at `end`, with at most so many bytes.
pub fn window_end(s: &[u8], from: usize, end: usize, most: usize) -> usize
    requires { from ≤ end }
    ensures { (from ≤ result) × (result ≤ end) }
{
    if end - from <= most {
        return end;
    }
    (from + 1..from + most + 1)
        .rev()
        .find(|i| !continues(s, *i))
        .unwrap_or(from)
}
