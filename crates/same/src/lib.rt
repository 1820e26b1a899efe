// Whether two names that were read are equal.
#![tactic(auto)]

ghost use Rattle.std.specs.Prelude.{◌≡◌, ◌-◌, ◌≤◌, length};
ghost use Rattle.rules.specs.Parse.{read_at};
ghost use Rattle.jsx.specs.Blank.{blanks};
ghost use Rattle.jsx.specs.Name.{same, element_name, part as name_part};
ghost use Rattle.lex.specs.Contract.{out_of, bytes_from, Past};
ghost use Rattle.same.specs.Contract.{ReadsAt, ReadTo, Named, same_names, behind_colon, behind_dot, same_parts};

use lex::bytes::COLON;
use lex::refusal::Refusal;

// Whether the bytes from a to b and from c to e are the same.
pub fn same_bytes(s: &[u8], a: usize, b: usize, c: usize, e: usize) -> bool
    requires { (a ≤ b) × (b ≤ length s.now) × (c ≤ e) × (e ≤ length s.now) }
    ensures { result ≡ same (bytes_from s.now a (b - a)) (bytes_from s.now c (e - c)) }
{
    let n = b - a;
    if n != e - c {
        return false;
    }
    lex::same_at(s, a, s, c, n)
}

// The end of a part that was read before.
fn part_end(s: &[u8], at: usize) -> usize
    requires { ReadsAt s.now name_part at }
    ensures { Past result s.now name_part at 1 }
{
    word::continue_lex_jsx_identifier(s, at)
}

// The end of blanks that were read before.
fn blanks_end(s: &[u8], at: usize) -> usize
    requires { ReadsAt s.now blanks at }
    ensures { Past result s.now blanks at 0 }
{
    blank::skip_blanks(s, at).unwrap()
}

// Whether two namespaced names, from behind the colons, at p and q, to their ends b and d, have the same second part.
fn jsx_namespaced_name_eq(s: &[u8], p: usize, b: usize, q: usize, d: usize) -> bool
    requires { ReadTo s.now behind_colon p b × ReadTo s.now behind_colon q d }
    ensures { result ≡ same_parts s.now behind_colon p q }
{
    same_bytes(s, blanks_end(s, p), b, blanks_end(s, q), d)
}

// Whether two member names, from behind dots, at p and q, to their ends b and d, have the same parts.
fn jsx_member_expression_eq(s: &[u8], p: usize, b: usize, q: usize, d: usize) -> bool
    requires { ReadTo s.now behind_dot p b × ReadTo s.now behind_dot q d }
    ensures { result ≡ same_parts s.now behind_dot p q }
{
    let mut x = p;
    let mut y = q;
    loop {
        let i = blanks_end(s, x);
        let j = blanks_end(s, y);
        let g = part_end(s, i);
        let h = part_end(s, j);
        if !same_bytes(s, i, g, j, h) {
            return false;
        }
        if g == b {
            return h == d;
        }
        if h == d {
            return false;
        }
        x = blanks_end(s, g) + 1;
        y = blanks_end(s, h) + 1;
    }
}

// Whether the element names from a to b and from c to d are equal, part for part and form for form.
pub fn jsx_element_name_eq(s: &[u8], a: usize, b: usize, c: usize, d: usize) -> bool
    requires { Named s.now a b × Named s.now c d }
    ensures { result ≡ same_names (out_of (read_at s.now element_name a)) (out_of (read_at s.now element_name c)) }
{
    if same_bytes(s, a, b, c, d) {
        return true; // the common case: no part is read
    }
    let e = part_end(s, a);
    let f = part_end(s, c);
    if !same_bytes(s, a, e, c, f) {
        return false;
    }
    if e == b {
        return f == d;
    }
    if f == d {
        return false;
    }
    let p = blanks_end(s, e);
    let q = blanks_end(s, f);
    let separator = lex::byte(s, p);
    if separator != lex::byte(s, q) {
        return false;
    }
    if separator == COLON {
        return jsx_namespaced_name_eq(s, p + 1, b, q + 1, d);
    }
    jsx_member_expression_eq(s, p + 1, b, q + 1, d)
}
