// Closing tags, with the verdict on them: one that repeats a one-part name byte for byte, or one that is read part by
// part and compared.
#![tactic(auto)]

ghost use Rattle.std.specs.Prelude.{◌≡◌, ◌+◌, ◌-◌, ◌<◌, ◌≤◌, length};
ghost use Rattle.jsx.specs.Closing.{no_name};
ghost use Rattle.lex.specs.Answer.{counted_in, said};
ghost use Rattle.lex.specs.Contract.{Leaf, nothing};
ghost use Rattle.table.specs.Slot.{seat};
ghost use Rattle.table.specs.Reader.{Room, MadeOf};
ghost use Rattle.tag.specs.Token.{close_open};
ghost use Rattle.closing.specs.Close.{Closes, Told, Opening, Slashed, closing, closing_named};

use lex::bytes::{GREATER, LESS, SLASH};
use lex::kind::Kind;
use lex::refusal::{Reason, Refusal, Span};
use table::{Node, ROW_WORDS, Slot};

// The name of an opening tag that begins at `at`: from `start` to `end`, in `count` records.
#[derive(Clone, Copy)]
pub struct Opened {
    pub at: usize,
    pub start: usize,
    pub end: usize,
    pub count: usize,
}

// Whether `</`, the n bytes from a on, and `>` stand at c.
fn closes(s: &[u8], c: usize, a: usize, n: usize) -> bool
    requires { (c ≤ length s.now) × (a + n ≤ length s.now) }
    ensures { Told result s.now c a n }
{
    if s.len() - c < n + 3 {
        return false;
    }
    if lex::byte(s, c) != LESS {
        return false;
    }
    if lex::byte(s, c + 1) != SLASH {
        return false;
    }
    if lex::byte(s, c + 2 + n) != GREATER {
        return false;
    }
    lex::same_at(s, a, s, c + 2, n)
}

// A closing tag at c that repeats a one-part name byte for byte: its record and its name's, where a table is lent.
fn close_same(
    t: &mut [u32],
    s: &[u8],
    name: Opened,
    c: usize,
    slot: Slot,
) -> Result<(usize, usize), Refusal>
    requires { Opening s.now name × (name.count ≡ 1)
        × Closes s.now c name.start (name.end - name.start) × Room 3 s.now c (seat slot) }
    ensures { MadeOf (counted_in result) (closing_named s.now name c) s.now c 3 (seat slot) 0
        t.old t.new }
{
    let e = c + 2 + (name.end - name.start);
    if t.len() == 0 {
        return Ok((e + 1, 2));
    }
    let i = table::start(t.len(), ROW_WORDS);
    name::put_name(&mut t[i..], s, slot.inside(), c + 2, e);
    table::put_node(
        t,
        slot,
        Node {
            kind: Kind::ClosingTag,
            start: c,
            end: e + 1,
            extra: 0,
            below: 1,
        },
    );
    Ok((e + 1, 2))
}

// Past `<`, blanks, `/`, blanks.
fn close_open(s: &[u8], c: usize) -> Result<usize, Refusal>
    requires { c ≤ length s.now }
    ensures { Leaf nothing (said result) s.now close_open c 2 }
{
    let p = tag::open_by(s, c, LESS)?;
    tag::open_by(s, p, SLASH)
}

// The closing tag at c from its name on, at q, and the verdict: 7, or its record and its name's.
fn close_named(
    t: &mut [u32],
    s: &[u8],
    name: Opened,
    c: usize,
    q: usize,
    slot: Slot,
) -> Result<(usize, usize), Refusal>
    requires { Opening s.now name × Room 3 s.now c (seat slot) × Slashed s.now c q }
    ensures { MadeOf (counted_in result) (closing_named s.now name c) s.now c 3 (seat slot) 0
        t.old t.new }
{
    let i = table::start(t.len(), ROW_WORDS);
    let (f, k) = name::parse_jsx_element_name(&mut t[i..], s, q, slot.inside())?;
    let z = tag::close_by(s, f, GREATER)?;
    if same::jsx_element_name_eq(s, name.start, name.end, q, f) {
        table::put_node(
            t,
            slot,
            Node {
                kind: Kind::ClosingTag,
                start: c,
                end: z,
                extra: 0,
                below: k,
            },
        );
        return Ok((z, k + 1));
    }
    Err(Reason::NamesDiffer.over_both(
        Span {
            start: name.start,
            end: name.end,
        },
        Span { start: q, end: f },
    ))
}

// A closing tag at c, read part by part, and the verdict: 9 where it has no name.
fn close_read(
    t: &mut [u32],
    s: &[u8],
    name: Opened,
    c: usize,
    slot: Slot,
) -> Result<(usize, usize), Refusal>
    requires { Opening s.now name × Room 3 s.now c (seat slot) }
    ensures { MadeOf (counted_in result) (closing_named s.now name c) s.now c 3 (seat slot) 0
        t.old t.new }
{
    let q = close_open(s, c)?;
    if lex::byte(s, q) == GREATER {
        return Err(Reason::ElementClosedByFragment.over_both(
            Span {
                start: name.start,
                end: name.end,
            },
            Span {
                start: c,
                end: q + 1,
            },
        ));
    }
    close_named(t, s, name, c, q, slot)
}

// The closing tag at c of an element, and the verdict on it. A name of one record is first looked for as it stands in
// the opening tag.
pub fn close(
    t: &mut [u32],
    s: &[u8],
    name: Opened,
    c: usize,
    slot: Slot,
) -> Result<(usize, usize), Refusal>
    requires { Opening s.now name × Room 3 s.now c (seat slot) }
    ensures { MadeOf (counted_in result) (closing_named s.now name c) s.now c 3 (seat slot) 0
        t.old t.new }
{
    if name.count == 1 {
        if closes(s, c, name.start, name.end - name.start) {
            return close_same(t, s, name, c, slot);
        }
    }
    close_read(t, s, name, c, slot)
}

// The closing tag at c from its name on, at q, behind a fragment whose opening tag is from `at` to e: 8.
fn close_by_name(
    t: &mut [u32],
    s: &[u8],
    at: usize,
    e: usize,
    c: usize,
    q: usize,
    slot: Slot,
) -> Result<(usize, usize), Refusal>
    requires { (at ≤ e) × Room 3 s.now c (seat slot) × Slashed s.now c q }
    ensures { MadeOf (counted_in result) (closing s.now at (e - at) no_name c) s.now c 3 (seat slot) 0
        t.old t.new }
{
    let (f, _) = name::parse_jsx_element_name(t, s, q, slot.inside())?;
    tag::close_by(s, f, GREATER)?;
    Err(Reason::FragmentClosedByName.over_both(
        Span { start: at, end: e },
        Span { start: q, end: f },
    ))
}

// The closing tag at c of a fragment whose opening tag is from `at` to e, and the verdict on it.
pub fn close_fragment(
    t: &mut [u32],
    s: &[u8],
    at: usize,
    e: usize,
    c: usize,
    slot: Slot,
) -> Result<(usize, usize), Refusal>
    requires { (at ≤ e) × Room 3 s.now c (seat slot) }
    ensures { MadeOf (counted_in result) (closing s.now at (e - at) no_name c) s.now c 3 (seat slot) 0
        t.old t.new }
{
    let q = close_open(s, c)?;
    if lex::byte(s, q) == GREATER {
        table::put_node(
            t,
            slot,
            Node {
                kind: Kind::ClosingTag,
                start: c,
                end: q + 1,
                extra: 0,
                below: 0,
            },
        );
        return Ok((q + 1, 1));
    }
    close_by_name(t, s, at, e, c, q, slot)
}
