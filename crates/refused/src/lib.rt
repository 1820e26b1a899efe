// The refused words, and a name as a primary.
#![tactic(auto)]

ghost use Rattle.std.specs.Prelude.{◌≡◌, true, ◌+◌, ◌-◌, ◌≤◌, length};
ghost use Rattle.rules.specs.Parse.{byte_at};
ghost use Rattle.jsx.specs.Name.{opens_name};
ghost use Rattle.jsx.specs.Word.{refused_word, primary_word};
ghost use Rattle.lex.specs.Answer.{said};
ghost use Rattle.lex.specs.Contract.{Leaf, nothing, bytes_from};
ghost use Rattle.refused.specs.WordList.{good};

use lex::refusal::{Reason, Refusal};

// Whether the n bytes from a on in s are a refused word, by a good list of those of n bytes, with a space behind each.
fn is_listed(words: &[u8], count: usize, s: &[u8], a: usize, n: usize) -> bool
    requires { (good words.now n count ≡ true) × (count ≤ 9) × (n ≤ 10) × (a + n ≤ length s.now) }
    ensures { result ≡ refused_word (bytes_from s.now a n) }
{
    let mut p = 0;
    for _i in 0..count {
        if lex::same_at(words, p, s, a, n) {
            return true;
        }
        p = p + n + 1;
    }
    false
}

// Whether the bytes from a to b are a refused word: these have 2 to 10 bytes.
pub fn is_refused_word(s: &[u8], a: usize, b: usize) -> bool
    requires { (a ≤ b) × (b ≤ length s.now) }
    ensures { result ≡ refused_word (bytes_from s.now a (b - a)) }
{
    match b - a {
        2 => is_listed(b"do if in ", 3, s, a, 2),
        3 => is_listed(b"for new try var let ", 5, s, a, 3),
        4 => is_listed(b"case else enum void with ", 5, s, a, 4),
        5 => is_listed(
            b"await break catch class const super throw while yield ",
            9,
            s,
            a,
            5,
        ),
        6 => is_listed(
            b"delete export import return switch typeof static public ",
            8,
            s,
            a,
            6,
        ),
        7 => is_listed(b"default extends finally package private ", 5, s, a, 7),
        8 => is_listed(b"continue debugger function ", 3, s, a, 8),
        9 => is_listed(b"interface protected ", 2, s, a, 9),
        10 => is_listed(b"instanceof implements ", 2, s, a, 10),
        _ => false,
    }
}

// Past a name as a primary, whose first byte was seen. A refused word is 3 at its start.
pub fn primary_word(s: &[u8], at: usize) -> Result<usize, Refusal>
    requires { (at ≤ length s.now) × (opens_name (byte_at s.now at) ≡ true) }
    ensures { Leaf nothing (said result) s.now primary_word at 1 }
{
    let p = word::skip_word(s, at);
    if is_refused_word(s, at, p) {
        Err(Reason::Unexpected.at(at))
    } else {
        Ok(p)
    }
}
