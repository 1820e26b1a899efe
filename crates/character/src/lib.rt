// Characters by their codes, from the bytes as they stand: nothing here asks for well-formed UTF-8.
#![tactic(auto)]

ghost use Rattle.std.specs.Prelude.{◌≡◌, ◌^◌, ◌<◌, ◌≤◌, length};
ghost use Rattle.rules.specs.Parse.{code_on, code_at};
ghost use Rattle.character.specs.Width.{width_of};

// The code that no character has: no Option, since the clause of `code_at` below is the definition's number.
const NO_CHAR: u32 = 0x11_0000;

// The code that begins with c and goes on with the N bytes from here on.
fn and_next<const N: usize>(s: &[u8], c: u32, at: usize) -> u32
    requires { (c < 2 ^ 5) × (N ≤ 3) × (at ≤ length s.now) }
    ensures { result ≡ code_on s.now N c at }
{
    let mut code = c;
    for i in 0..N {
        match lex::byte(s, at + i) {
            b @ 0x80..=0xBF => code = code * 0x40 + (b - 0x80),
            _ => return NO_CHAR,
        }
    }
    code
}

// The code of the character here; at the end, and where the bytes make no character, the code that none has.
// Inline: as a call it takes a name beyond ASCII a fifth longer.
#[inline]
#[tactic(auto, unfolding(rules::specs::Parse::code_at))]
pub fn code_at(s: &[u8], at: usize) -> u32
    requires { at ≤ length s.now }
    ensures { result ≡ code_at s.now at }
{
    match lex::byte(s, at) {
        b @ ..=0x7F => b,
        b @ 0xC0..=0xDF => and_next::<1>(s, b - 0xC0, at + 1),
        b @ 0xE0..=0xEF => and_next::<2>(s, b - 0xE0, at + 1),
        b @ 0xF0..=0xF7 => and_next::<3>(s, b - 0xF0, at + 1),
        _ => NO_CHAR,
    }
}

// How many bytes the character has whose first byte is b.
#[tactic(auto, unfolding(crate::specs::Width::width_of))]
pub fn width(b: u32) -> usize
    ensures { result ≡ width_of b }
{
    match b {
        0xC0..=0xDF => 2,
        0xE0..=0xEF => 3,
        0xF0..=0xF7 => 4,
        _ => 1,
    }
}
