// Blanks and comments. Chapter 'Bytes, blanks, comments' of document 01, with request 1 of document 02.
#![tactic(auto)]

ghost use Rattle.std.specs.Prelude.{◌≡◌, ◌+◌, ◌<◌, ◌≤◌, length};
ghost use Rattle.rules.specs.Parse.{code_at};
ghost use Rattle.jsx.specs.Byte.{is, ◌or◌, ◌‥◌};
ghost use Rattle.jsx.specs.Blank.{blank_char, line_terminator, comment, line_comment, blanks, pass as pass_rule};
ghost use Rattle.lex.specs.Answer.{said};
ghost use Rattle.lex.specs.Contract.{Leaf, Past, nothing};
ghost use Rattle.blank.specs.Here.{blank_byte, blank_width, line_ends, line_stop, stopped, NeverClosed};

use lanes::sought::{Beyond, Only, Sought};
use lex::bytes::{CR, END, LF, SLASH, SPACE, STAR, TAB};
use lex::refusal::{Reason, Refusal};

// The first byte beyond ASCII.
const WIDE: u32 = 0x80;

// Tab, LF, VT, FF, CR (9 to 13) or space: a byte that is a blank by itself.
fn is_blank(b: u32) -> bool
    ensures { result ≡ blank_byte b }
{
    matches!(b, TAB..=CR | SPACE)
}

// A character that is a blank, by its code.
fn is_blank_char(c: u32) -> bool
    ensures { result ≡ blank_char c }
{
    if c < WIDE {
        return is_blank(c);
    }
    matches!(
        c,
        0xA0 | 0x1680 | 0x2000..=0x200A | 0x2028 | 0x2029 | 0x202F | 0x205F | 0x3000 | 0xFEFF
    )
}

// LF, CR, U+2028 or U+2029.
fn ends_line(c: u32) -> bool
    ensures { result ≡ line_terminator c }
{
    matches!(c, LF | CR | 0x2028 | 0x2029)
}

// How many bytes the blank has that stands here, if one does.
fn blank_width(s: &[u8], at: usize) -> Option<usize>
    requires { at ≤ length s.now }
    ensures { result ≡ blank_width s.now at }
{
    if is_blank_char(character::code_at(s, at)) {
        return Some(character::width(lex::byte(s, at)));
    }
    None
}

// Whether a `//` comment ends here: at a line terminator, or at the end.
fn line_ends(s: &[u8], at: usize) -> bool
    requires { at ≤ length s.now }
    ensures { result ≡ line_ends s.now at }
{
    let b = lex::byte(s, at);
    if b < WIDE {
        return ends_line(b);
    }
    if b == END {
        return true;
    }
    ends_line(character::code_at(s, at))
}

// Past the `/* .. */` that begins here; 17 at its first byte where it is never closed.
pub fn skip_comment(s: &[u8], at: usize) -> Result<usize, Refusal>
    requires { at + 2 ≤ length s.now }
    ensures read { Leaf nothing (said result) s.now comment at 4 }
    ensures open { NeverClosed at result }
{
    let mut p = lanes::find(s, at + 2, Only(b'*')); // behind `/*`
    while lex::byte(s, p) != END {
        if lex::two_at(s, p, STAR, SLASH) {
            return Ok(p + 2);
        }
        p = lanes::find(s, p + 1, Only(b'*'));
    }
    Err(Reason::CommentNeverClosed.at(at))
}

// A byte at which a look over a line stops: one that ends it, or one beyond ASCII, which may begin what does.
#[derive(Clone, Copy)]
struct LineStop;

impl Sought for LineStop {
    ghost test = { λ it. line_stop };

    const PAIRS: bool = false;

    fn has(self, b: u8) -> bool {
        b == b'\n' || b == b'\r' || b >= 0x80
    }

    fn marks(self, w: u64) -> u64 {
        Only(b'\n').marks(w) | (Only(b'\r').marks(w) | Beyond.marks(w))
    }
}

// Past the `//` that begins here, up to what ends its line.
pub fn skip_line_comment(s: &[u8], at: usize) -> usize
    requires { at + 2 ≤ length s.now }
    ensures { Past result s.now line_comment at 2 }
{
    let mut p = at + 2; // behind `//`
    while !line_ends(s, p) {
        if lex::byte(s, p) < WIDE {
            p = lanes::find(s, p + 1, LineStop);
            continue;
        }
        p = p + 1;
    }
    p
}

// Past every blank and comment from here on, or up to a comment that is never closed.
fn stop_of_blanks(s: &[u8], at: usize) -> usize
    requires { at ≤ length s.now }
    ensures read { Leaf nothing (stopped s.now result) s.now blanks at 0 }
    ensures inside { result ≤ length s.now }
{
    let mut p = at;
    loop {
        if lex::byte(s, p) != SLASH {
            let Some(n) = blank_width(s, p) else {
                return p;
            };
            p = p + n;
            continue;
        }
        let c = lex::byte(s, p + 1);
        if c == SLASH {
            p = skip_line_comment(s, p);
            continue;
        }
        if c != STAR {
            return p;
        }
        let Ok(q) = skip_comment(s, p) else {
            return p;
        };
        p = q;
    }
}

// Past every blank and comment from here on. The refusal is made here, which is to stand in the callers: a call that
// handed up a `Result` would do so through memory.
#[inline(always)]
fn skip_blanks_and_comments(s: &[u8], at: usize) -> Result<usize, Refusal>
    requires { at ≤ length s.now }
    ensures { Leaf nothing (said result) s.now blanks at 0 }
{
    let p = stop_of_blanks(s, at);
    if lex::two_at(s, p, SLASH, STAR) {
        return Err(Reason::CommentNeverClosed.at(p));
    }
    Ok(p)
}

// A character of ASCII behind the space: of these, only a `/` may begin a comment, and none is a blank.
fn is_token(b: u32) -> bool
    ensures { result ≡ (0x21 ‥ 0x7F) b }
{
    lex::within(b, 0x21, 0x7F)
}

// Whether this byte makes a `/` before it a comment.
fn opens_comment(b: u32) -> bool
    ensures { result ≡ (is "*" or is "/") b }
{
    b == STAR || b == SLASH
}

// Past every blank and comment from here on. Most calls meet no comment and no blank beyond ASCII, and many no blank:
// the loop over all of them is called only where one may begin, from one place, so that this function is small enough
// to stand in its callers.
#[inline(always)]
pub fn skip_blanks(s: &[u8], at: usize) -> Result<usize, Refusal>
    requires { at ≤ length s.now }
    ensures { Leaf nothing (said result) s.now blanks at 0 }
{
    for p in at..s.len() {
        let b = lex::byte(s, p);
        if is_token(b) {
            if b != SLASH {
                return Ok(p);
            }
            if !opens_comment(lex::byte(s, p + 1)) {
                return Ok(p);
            }
        } else if is_blank(b) {
            continue;
        }
        return skip_blanks_and_comments(s, p);
    }
    Ok(s.len())
}

// Past the byte here and the blanks behind it.
pub fn pass(s: &[u8], at: usize) -> Result<usize, Refusal>
    requires { at < length s.now }
    ensures { Leaf nothing (said result) s.now pass_rule at 1 }
{
    skip_blanks(s, at + 1)
}
