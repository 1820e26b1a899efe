// Texts, quoted attribute strings, and strings inside braces.
#![tactic(auto)]

ghost use Rattle.std.specs.Prelude.{◌≡◌, true, ◌≤◌, length};
ghost use Rattle.rules.specs.Parse.{byte_at};
ghost use Rattle.jsx.specs.Byte.{line_end, quote};
ghost use Rattle.jsx.specs.Text.{in_text, text, quoted};
ghost use Rattle.jsx.specs.Word.{string};
ghost use Rattle.lex.specs.Answer.{said};
ghost use Rattle.lex.specs.Contract.{Leaf, Past, nothing};

use lanes::sought::{AnyOf, Only};
use lex::bytes::{
    APOSTROPHE, BACKSLASH, CLOSE_BRACE, CR, END, GREATER, LESS, LF, OPEN_BRACE, QUOTE,
};
use lex::refusal::{Reason, Refusal};

pub fn in_text(b: u32) -> bool
    ensures { result ≡ in_text b }
{
    !matches!(b, LESS | GREATER | OPEN_BRACE | CLOSE_BRACE | END)
}

// A text, whose first byte was seen: its end. (The text's case of the Rust's `read_jsx_child`.)
pub fn read_jsx_text(s: &[u8], at: usize) -> usize
    requires { (at ≤ length s.now) × (in_text (byte_at s.now at) ≡ true) }
    ensures { Past result s.now text at 1 }
{
    lanes::find(s, at + 1, AnyOf(b'<', b'>', b'{', b'}'))
}

pub fn is_quote(b: u32) -> bool
    ensures { result ≡ quote b }
{
    matches!(b, QUOTE | APOSTROPHE)
}

// A quoted attribute string, whose quote was seen: it ends at the first same quote. Never closed: 5 at its first byte.
pub fn read_jsx_string_literal(s: &[u8], at: usize) -> Result<usize, Refusal>
    requires { (at ≤ length s.now) × (quote (byte_at s.now at) ≡ true) }
    ensures { Leaf nothing (said result) s.now quoted at 2 }
{
    let p = lanes::find(s, at + 1, Only(s[at]));
    if p < s.len() {
        return Ok(p + 1);
    }
    Err(Reason::QuotedNeverClosed.at(at))
}

fn is_line_end(b: u32) -> bool
    ensures { result ≡ line_end b }
{
    b == LF || b == CR
}

// A string inside braces, whose quote was seen. A backslash is 3 there; LF or CR is 3 from the quote to it; never
// closed: 18 at its first byte.
pub fn read_string(s: &[u8], at: usize) -> Result<usize, Refusal>
    requires { (at ≤ length s.now) × (quote (byte_at s.now at) ≡ true) }
    ensures { Leaf nothing (said result) s.now string at 2 }
{
    let q = lex::byte(s, at);
    for p in at + 1..s.len() {
        let b = lex::byte(s, p);
        if b == q {
            return Ok(p + 1);
        }
        if b == BACKSLASH {
            return Err(Reason::Unexpected.at(p));
        }
        if is_line_end(b) {
            return Err(Reason::Unexpected.over(at, p));
        }
    }
    Err(Reason::StringNeverClosed.at(at))
}
