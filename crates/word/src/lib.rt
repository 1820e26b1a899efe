// Names: tests of their bytes and characters, their parts, and names inside braces.
#![tactic(auto)]

ghost use Rattle.std.specs.Prelude.{◌≡◌, true, ◌-◌, ◌≤◌, length};
ghost use Rattle.rules.specs.Parse.{byte_at, code_at};
ghost use Rattle.jsx.specs.Byte.{letter, digit};
ghost use Rattle.jsx.specs.Name.{opens_name, in_word, opens_part, in_part, dashed, part as name_part};
ghost use Rattle.jsx.specs.Word.{word};
ghost use Rattle.lex.specs.Answer.{flag, said};
ghost use Rattle.lex.specs.Contract.{Leaf, Past, nothing, bytes_from};
ghost use Rattle.word.specs.Here.{name_byte, common_width, part_width, ends_part, rest_of_part, EndOfPart};

use lex::bytes::{DASH, DOLLAR, LOWER_A, LOWER_Z, NINE, UNDERSCORE, UPPER_A, UPPER_Z, ZERO};
use lex::refusal::Refusal;

// The first byte beyond ASCII.
const WIDE: u32 = 0x80;

fn is_letter(b: u32) -> bool
    ensures { result ≡ letter b }
{
    lex::within(b, LOWER_A, LOWER_Z) || lex::within(b, UPPER_A, UPPER_Z)
}

pub fn is_digit(b: u32) -> bool
    ensures { result ≡ digit b }
{
    lex::within(b, ZERO, NINE)
}

pub fn opens_name(b: u32) -> bool
    ensures { result ≡ opens_name b }
{
    is_letter(b) || b == UNDERSCORE || b == DOLLAR
}

pub fn in_word(b: u32) -> bool
    ensures { result ≡ in_word b }
{
    opens_name(b) || is_digit(b)
}

// A byte of ASCII in a part of a name.
fn in_name(b: u32) -> bool
    ensures { result ≡ name_byte b }
{
    in_word(b) || b == DASH
}

// Whether a character, by its code, opens a part of a name.
fn opens_code(c: u32) -> bool
    ensures { result ≡ opens_part c }
{
    if c < WIDE {
        opens_name(c)
    } else {
        identifier::is_identifier_start_unicode(c)
    }
}

// Whether a character, by its code, may stand in a part of a name.
fn in_code(c: u32) -> bool
    ensures { result ≡ in_part c }
{
    if c < WIDE {
        in_name(c)
    } else {
        identifier::is_identifier_part_unicode(c)
    }
}

// Whether a part of a name begins here.
pub fn opens_part(s: &[u8], at: usize) -> bool
    requires { at ≤ length s.now }
    ensures { result ≡ opens_part (code_at s.now at) }
{
    opens_code(character::code_at(s, at))
}

// How many bytes the character of a name has that stands here, if it is of ASCII or of a common script.
fn common_width(s: &[u8], at: usize) -> Option<usize>
    requires { at ≤ length s.now }
    ensures { result ≡ common_width s.now at }
{
    let b = lex::byte(s, at);
    if b < WIDE {
        in_name(b).then_some(1)
    } else if identifier::is_common(character::code_at(s, at)) {
        Some(character::width(b))
    } else {
        None
    }
}

// How many bytes the character of a name has that stands here, if one does.
fn part_width(s: &[u8], at: usize) -> Option<usize>
    requires { at ≤ length s.now }
    ensures { result ≡ part_width s.now at }
{
    if in_code(character::code_at(s, at)) {
        Some(character::width(lex::byte(s, at)))
    } else {
        None
    }
}

// The end of a part from `at` within it on.
fn end_of_rare(s: &[u8], at: usize) -> usize
    requires { at ≤ length s.now }
    ensures { Past result s.now rest_of_part at 0 }
{
    let mut p = at;
    while let Some(n) = part_width(s, p) {
        p += n;
    }
    p
}

// Whether a part that did not go on by a common character ends here, as far as no table tells: a byte of ASCII stands
// here, or what stands between names.
fn ends_part(s: &[u8], at: usize) -> bool
    requires { at ≤ length s.now }
    ensures { result ≡ ends_part s.now at }
{
    lex::byte(s, at) < WIDE || identifier::is_gap(character::code_at(s, at))
}

// The same; first by characters of ASCII and of common scripts, for which no table is searched.
fn end_beyond(s: &[u8], at: usize) -> usize
    requires { at ≤ length s.now }
    ensures { Past result s.now rest_of_part at 0 }
{
    let mut p = at;
    while let Some(n) = common_width(s, p) {
        p += n;
    }
    if ends_part(s, p) {
        p
    } else {
        end_of_rare(s, p)
    }
}

// A part of a name, whose first character was seen: its end.
pub fn continue_lex_jsx_identifier(s: &[u8], at: usize) -> usize
    requires { (at ≤ length s.now) × (opens_part (code_at s.now at) ≡ true) }
    ensures { Past result s.now name_part at 1 }
{
    end_beyond(s, at + character::width(lex::byte(s, at)))
}

// The end of the part that begins here, if one does.
fn end_of_part(s: &[u8], at: usize) -> Option<usize>
    requires { at ≤ length s.now }
    ensures { EndOfPart result s.now at }
{
    if opens_part(s, at) {
        Some(continue_lex_jsx_identifier(s, at))
    } else {
        None
    }
}

// Past a part of a name. One of ASCII is read here, any other by `end_of_part`, from its first byte on. (The
// place is needed behind the loop, where a `for` has none: that would be no plainer.) It stands in its callers: by a
// call, which hands its answer over through memory, stages of tags and attributes took 1.2 to 1.3 of the time.
#[inline(always)]
pub fn parse_jsx_identifier(s: &[u8], at: usize) -> Result<usize, Refusal>
    requires { at ≤ length s.now }
    ensures { Leaf nothing (said result) s.now name_part at 1 }
{
    if opens_name(lex::byte(s, at)) {
        let mut p = at + 1;
        while in_name(lex::byte(s, p)) {
            p += 1;
        }
        if lex::byte(s, p) < WIDE {
            return Ok(p);
        }
    }
    match end_of_part(s, at) {
        Some(e) => Ok(e),
        None => Err(lex::unexpected(s, at)),
    }
}

// Whether a dash is among the bytes from a to b.
pub fn dashed(s: &[u8], a: usize, b: usize) -> bool
    requires { (a ≤ b) × (b ≤ length s.now) }
    ensures { flag result ≡ dashed (bytes_from s.now a (b - a)) }
{
    s[a..b].contains(&b'-')
}

// A name inside braces, whose first byte was seen: its end. (A `for` was measured: names of
// mixed lengths took 1.04 of the time, those of 16 and 32 bytes 1.05.)
pub fn skip_word(s: &[u8], at: usize) -> usize
    requires { (at ≤ length s.now) × (opens_name (byte_at s.now at) ≡ true) }
    ensures { Past result s.now word at 1 }
{
    let mut p = at + 1;
    while in_word(lex::byte(s, p)) {
        p += 1;
    }
    p
}

// Past a name inside braces.
pub fn read_word(s: &[u8], at: usize) -> Result<usize, Refusal>
    requires { at ≤ length s.now }
    ensures { Leaf nothing (said result) s.now word at 1 }
{
    if opens_name(lex::byte(s, at)) {
        Ok(skip_word(s, at))
    } else {
        Err(lex::unexpected(s, at))
    }
}
