// What stands between two readers of the cycle and needs none of them: an operator, a comma,
// and the like, each with the blanks around it.
#![tactic(auto)]

ghost use Rattle.std.specs.Prelude.{◌≡◌, ◌<◌, ◌≤◌, length};
ghost use Rattle.rules.specs.Parse.{byte_at};
ghost use Rattle.jsx.specs.Blank.{pass};
ghost use Rattle.jsx.specs.Depth.{element_too_deep};
ghost use Rattle.lex.specs.Answer.{refused, offered, said, told};
ghost use Rattle.lex.specs.Contract.{Leaf, Past, nothing};
ghost use Rattle.tag.specs.Token.{goes_on};
ghost use Rattle.token.specs.Token.{once, twice, operator_here, operator as operator_rule};
ghost use Rattle.token.specs.Token.{suffixed, comma as comma_rule, assigned, attribute_at};
ghost use Rattle.token.specs.Token.{parted, dots_on, shut_braces, dot_word};

use lex::bytes::{
    AMPERSAND, BAR, CLOSE_BRACE, COLON, COMMA, DASH, DOT, EQUALS, GREATER, OPEN_BRACKET,
    OPEN_PAREN, PLUS, SLASH, STAR,
};
use lex::refusal::{Reason, Refusal};

// An element with no level left, whose name or `>` would stand at a: 14 at its first byte, if one does.
pub fn too_deep(s: &[u8], at: usize, a: usize) -> Refusal
    requires { Past a s.now pass at 1 }
    ensures { Leaf nothing (refused result) s.now element_too_deep at 1 }
{
    let b = lex::byte(s, a);
    if b == GREATER {
        return Reason::TooDeep.at(at);
    }
    if word::opens_part(s, a) {
        return Reason::TooDeep.at(at);
    }
    lex::unexpected(s, a)
}

// Past one byte here, unless it stands there twice.
fn once(s: &[u8], at: usize, b: u32) -> Result<Option<usize>, Refusal>
    requires { (byte_at s.now at ≡ b) × (b < 256) }
    ensures { Leaf goes_on (offered at result) s.now (once b) at 1 }
{
    if lex::two_at(s, at, b, b) {
        return Err(Reason::Unexpected.at(at));
    }
    Ok(Some(at + 1))
}

// Past one byte that stands here twice.
fn twice(s: &[u8], at: usize, b: u32) -> Result<Option<usize>, Refusal>
    requires { at ≤ length s.now × (b < 256) }
    ensures { Leaf goes_on (offered at result) s.now (twice b) at 2 }
{
    if !lex::two_at(s, at, b, b) {
        return Err(Reason::Unexpected.at(at));
    }
    Ok(Some(at + 2))
}

// Past the operator here, if one begins here.
fn operator_here(s: &[u8], at: usize) -> Result<Option<usize>, Refusal>
    requires { at ≤ length s.now }
    ensures { Leaf goes_on (offered at result) s.now operator_here at 0 }
{
    let b = lex::byte(s, at);
    match b {
        STAR | PLUS | DASH => once(s, at, b),
        AMPERSAND | BAR => twice(s, at, b),
        _ => Ok(None),
    }
}

// Past blanks, an operator and blanks, if an operator follows.
pub fn operator(s: &[u8], at: usize) -> Result<Option<usize>, Refusal>
    requires { at ≤ length s.now }
    ensures { Leaf goes_on (offered at result) s.now operator_rule at 0 }
{
    let q = blank::skip_blanks(s, at)?;
    let Some(p) = operator_here(s, q)? else {
        return Ok(None);
    };
    let z = blank::skip_blanks(s, p)?;
    Ok(Some(z))
}

// Past blanks before a `.`, `[` or `(`, if one follows.
pub fn suffix(s: &[u8], at: usize) -> Result<Option<usize>, Refusal>
    requires { at ≤ length s.now }
    ensures { Leaf goes_on (offered at result) s.now suffixed at 0 }
{
    let q = blank::skip_blanks(s, at)?;
    let b = lex::byte(s, q);
    match b {
        DOT | OPEN_BRACKET | OPEN_PAREN => Ok(Some(q)),
        _ => Ok(None),
    }
}

// Past blanks, a comma and blanks, and true; or past the blanks, where no comma follows, and false.
pub fn comma(s: &[u8], at: usize) -> Result<(usize, bool), Refusal>
    requires { at ≤ length s.now }
    ensures { Leaf goes_on (told result) s.now comma_rule at 0 }
{
    let q = blank::skip_blanks(s, at)?;
    if lex::byte(s, q) != COMMA {
        return Ok((q, false));
    }
    let p = blank::pass(s, q)?;
    Ok((p, true))
}

// Past blanks, `=` and blanks, if `=` follows.
pub fn assign(s: &[u8], at: usize) -> Result<Option<usize>, Refusal>
    requires { at ≤ length s.now }
    ensures { Leaf goes_on (offered at result) s.now assigned at 0 }
{
    let q = blank::skip_blanks(s, at)?;
    if lex::byte(s, q) != EQUALS {
        return Ok(None);
    }
    let p = blank::pass(s, q)?;
    Ok(Some(p))
}

// Past blanks, and whether an attribute follows: it does not where `/` or `>` stands.
pub fn attribute_at(s: &[u8], at: usize) -> Result<(usize, bool), Refusal>
    requires { at ≤ length s.now }
    ensures { Leaf goes_on (told result) s.now attribute_at at 0 }
{
    let q = blank::skip_blanks(s, at)?;
    let b = lex::byte(s, q);
    match b {
        SLASH | GREATER => Ok((q, false)),
        _ => Ok((q, true)),
    }
}

// Past blanks, `:` and blanks.
pub fn colon(s: &[u8], at: usize) -> Result<usize, Refusal>
    requires { at ≤ length s.now }
    ensures { Leaf nothing (said result) s.now parted at 1 }
{
    let p = tag::close_by(s, at, COLON)?;
    blank::skip_blanks(s, p)
}

// Past `...` and blanks.
pub fn dots(s: &[u8], at: usize) -> Result<usize, Refusal>
    requires { at ≤ length s.now }
    ensures { Leaf nothing (said result) s.now dots_on at 3 }
{
    if lex::three_at(s, at, DOT, DOT, DOT) {
        return blank::skip_blanks(s, at + 3);
    }
    if lex::byte(s, at) == DOT {
        return Err(Reason::Unexpected.at(at));
    }
    Err(lex::unexpected(s, at))
}

// Past blanks and `}`; a comma there is refused with 16.
pub fn shut_braces(s: &[u8], at: usize) -> Result<usize, Refusal>
    requires { at ≤ length s.now }
    ensures { Leaf nothing (said result) s.now shut_braces at 1 }
{
    let q = blank::skip_blanks(s, at)?;
    if lex::byte(s, q) == COMMA {
        return Err(Reason::CommaInBraces.over(q, q + 1));
    }
    lex::expect(s, q, CLOSE_BRACE)
}

// Past `.`, blanks and a name.
pub fn dot_word(s: &[u8], at: usize) -> Result<usize, Refusal>
    requires { at ≤ length s.now }
    ensures { Leaf nothing (said result) s.now dot_word at 1 }
{
    let p = tag::open_by(s, at, DOT)?;
    word::read_word(s, p)
}
