// Numbers inside braces.
#![tactic(auto)]

ghost use Rattle.std.specs.Prelude.{◌≡◌, true, ◌≤◌, length};
ghost use Rattle.rules.specs.Parse.{byte_at, pick};
ghost use Rattle.jsx.specs.Refusal.{unexpected};
ghost use Rattle.jsx.specs.Byte.{digit};
ghost use Rattle.jsx.specs.Name.{in_word};
ghost use Rattle.jsx.specs.Word.{digits, whole, number};
ghost use Rattle.lex.specs.Answer.{Got, No, said};
ghost use Rattle.lex.specs.Contract.{Leaf, Past, nothing};

use lex::bytes::{DOT, ZERO};
use lex::refusal::{Reason, Refusal};

// As many digits as there are, the first of which was seen: their end. (A loop as in `word::skip_word`, where a `for` was
// measured and took 1.04 of the time.)
fn skip_digits(s: &[u8], at: usize) -> usize
    requires { (at ≤ length s.now) × (digit (byte_at s.now at) ≡ true) }
    ensures { Past result s.now digits at 1 }
{
    let mut p = at + 1;
    while word::is_digit(lex::byte(s, p)) {
        p += 1;
    }
    p
}

// A number's whole digits, a 0 alone or digits: their end.
fn skip_whole(s: &[u8], at: usize) -> usize
    requires { (at ≤ length s.now) × (digit (byte_at s.now at) ≡ true) }
    ensures { Past result s.now whole at 1 }
{
    if lex::byte(s, at) == ZERO {
        at + 1
    } else {
        skip_digits(s, at)
    }
}

// A number from `at` on ends here if no byte of a word follows; else 3 at its start.
fn end_number(s: &[u8], at: usize, end: usize) -> Result<usize, Refusal>
    requires { end ≤ length s.now }
    ensures { said result ≡ pick (in_word (byte_at s.now end)) (No unexpected at at 0 0) (Got end 0) }
{
    if word::in_word(lex::byte(s, end)) {
        Err(Reason::Unexpected.at(at))
    } else {
        Ok(end)
    }
}

// Past a number, whose first byte was seen. A bad one is 3 at its start.
pub fn read_number(s: &[u8], at: usize) -> Result<usize, Refusal>
    requires { (at ≤ length s.now) × (digit (byte_at s.now at) ≡ true) }
    ensures { Leaf nothing (said result) s.now number at 1 }
{
    let whole = skip_whole(s, at);
    if lex::byte(s, whole) != DOT {
        return end_number(s, at, whole);
    }
    let p = whole + 1;
    if word::is_digit(lex::byte(s, p)) {
        return end_number(s, at, skip_digits(s, p));
    }
    Err(Reason::Unexpected.at(at))
}
