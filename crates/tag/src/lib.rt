// What the readers of tags share and needs none of them: a byte with blanks, a tag's end, a quoted value, and what may
// not stand behind an element.
#![tactic(auto)]

ghost use Rattle.std.specs.Prelude.{◌≡◌, true, ◌<◌, ◌≤◌, length};
ghost use Rattle.rules.specs.Parse.{byte_at};
ghost use Rattle.jsx.specs.Byte.{quote};
ghost use Rattle.jsx.specs.Text.{quoted};
ghost use Rattle.jsx.specs.Expression.{no_sibling};
ghost use Rattle.jsx.specs.Tag.{tag_end};
ghost use Rattle.lex.specs.Answer.{counted_in, said, said_as, told};
ghost use Rattle.lex.specs.Contract.{Leaf, nothing};
ghost use Rattle.table.specs.Slot.{seat};
ghost use Rattle.table.specs.Reader.{Room, Made};
ghost use Rattle.tag.specs.Token.{open_by, close_by, goes_on};

use lex::bytes::{EQUALS, GREATER, LESS, SLASH};
use lex::kind::Kind;
use lex::numbered::{RefusedAs, Refusing};
use lex::refusal::{Reason, Refusal};
use table::{Node, Slot};

// Past this byte, and the blanks behind it.
pub fn open_by(s: &[u8], at: usize, b: u32) -> Result<usize, Refusal>
    requires { (b < 256) × (at ≤ length s.now) }
    ensures { Leaf nothing (said result) s.now (open_by b) at 1 }
{
    let p = lex::expect(s, at, b)?;
    blank::skip_blanks(s, p)
}

// Past blanks, and this byte.
pub fn close_by(s: &[u8], at: usize, b: u32) -> Result<usize, Refusal>
    requires { (b < 256) × (at ≤ length s.now) }
    ensures { Leaf nothing (said result) s.now (close_by b) at 1 }
{
    let p = blank::skip_blanks(s, at)?;
    lex::expect(s, p, b)
}

// The end of an opening tag: `>`, and true, or `/` and `>`, and false: no content follows.
pub fn tag_end(s: &[u8], at: usize) -> Result<(usize, bool), Refusal>
    requires { at ≤ length s.now }
    ensures { Leaf goes_on (told result) s.now tag_end at 1 }
{
    let b = lex::byte(s, at);
    if b == GREATER {
        return Ok((at + 1, true));
    }
    if b != SLASH {
        return Err(lex::unexpected(s, at));
    }
    let p = close_by(s, at + 1, GREATER)?;
    Ok((p, false))
}

// Behind an element that is no child: blanks, and a `<` is refused: with 12, or with n before `<` and `=`. Nothing is
// passed.
pub fn no_sibling<N: Refusing>(s: &[u8], at: usize, n: N) -> Result<usize, RefusedAs<N>>
    requires { at ≤ length s.now }
    ensures { Leaf nothing (said_as N.number_of result) s.now (no_sibling (N.number_of n)) at 0 }
{
    let p = blank::skip_blanks(s, at)?;
    if lex::byte(s, p) != LESS {
        return Ok(at);
    }
    if lex::two_at(s, p, LESS, LESS) || lex::two_at(s, p, LESS, EQUALS) {
        return Err(RefusedAs::at(n, p));
    }
    Err(Reason::Adjacent.over(p, p + 1).into())
}

// A quoted attribute value, whose quote was seen, and its record.
pub fn quoted_value(
    t: &mut [u32],
    s: &[u8],
    at: usize,
    slot: Slot,
) -> Result<(usize, usize), Refusal>
    requires { Room 3 s.now at (seat slot) × (quote (byte_at s.now at) ≡ true) }
    ensures { Made (counted_in result) s.now quoted at 2 (seat slot) 0 t.old t.new }
{
    let e = text::read_jsx_string_literal(s, at)?;
    table::put_node(
        t,
        slot,
        Node {
            kind: Kind::Quoted,
            start: at,
            end: e,
            extra: 0,
            below: 0,
        },
    );
    Ok((e, 1))
}
