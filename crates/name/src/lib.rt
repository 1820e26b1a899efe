// Names of elements and attributes, with their records. A reader's number is how many records it has made.
#![tactic(auto)]

ghost use Rattle.std.specs.Prelude.{◌≡◌, ◌-◌, ◌<◌, ◌≤◌, length};
ghost use Rattle.rules.specs.Forest.{node};
ghost use Rattle.rules.specs.Rule.{many, ◌⨾◌};
ghost use Rattle.jsx.specs.Kind as kinds;
ghost use Rattle.jsx.specs.Blank.{blanks};
ghost use Rattle.jsx.specs.Name.{dashed, is_this, opens_reference, one_name, object_name, part as name_part, other_part, dotted_part, dotted, element_name, attribute_name, namespaced, member};
ghost use Rattle.lex.specs.Kind.{kind_number};
ghost use Rattle.lex.specs.Answer.{counted_in, flag};
ghost use Rattle.lex.specs.Contract.{Past, bytes_from};
ghost use Rattle.table.specs.Slot.{seat};
ghost use Rattle.table.specs.Contract.{Stored};
ghost use Rattle.table.specs.Reader.{Room, Made};
ghost use Rattle.name.specs.Contract.{Prefix, Spelt};

use lex::bytes::{COLON, DOLLAR, DOT, UNDERSCORE, UPPER_A, UPPER_Z};
use lex::kind::Kind;
use lex::refusal::{Reason, Refusal};
use table::{Node, ROW_WORDS, Slot};

// A name's first part, from `at` to `end`, and the blanks behind it, up to `next`, where a colon stands.
#[derive(Drop)]
pub struct First {
    pub at: usize,
    pub end: usize,
    pub next: usize,
}

// Whether the bytes from a to b are `this`.
fn is_this(s: &[u8], a: usize, b: usize) -> bool
    requires { (a ≤ b) × (b ≤ length s.now) }
    ensures { result ≡ is_this (bytes_from s.now a (b - a)) }
{
    b - a == 4
        && lex::two_at(s, a, b't' as u32, b'h' as u32)
        && lex::two_at(s, a + 2, b'i' as u32, b's' as u32)
}

// A to Z, `_`, `$`, or a byte of a character beyond ASCII.
fn opens_reference(b: u32) -> bool
    ensures { result ≡ opens_reference b }
{
    lex::within(b, UPPER_A, UPPER_Z) || b == UNDERSCORE || b == DOLLAR || lex::within(b, 0x80, 0xFF)
}

// The kind of a one-part name from a to b: identifier, reference or This.
fn name_kind(s: &[u8], a: usize, b: usize, dash: bool) -> Kind
    requires { (a < b) × (b ≤ length s.now) × (flag dash ≡ dashed (bytes_from s.now a (b - a))) }
    ensures { one_name (bytes_from s.now a (b - a)) ≡ node (kind_number result) (flag dash) }
{
    if dash {
        Kind::Identifier
    } else if opens_reference(lex::byte(s, a)) {
        Kind::Reference
    } else if is_this(s, a, b) {
        Kind::This
    } else {
        Kind::Identifier
    }
}

// The kind of a member's object from a to b: This or reference.
fn object_kind(s: &[u8], a: usize, b: usize) -> Kind
    requires { (a ≤ b) × (b ≤ length s.now) }
    ensures { object_name (bytes_from s.now a (b - a)) ≡ node (kind_number result) (dashed (bytes_from s.now a (b - a))) }
{
    if is_this(s, a, b) {
        Kind::This
    } else {
        Kind::Reference
    }
}

// The row of a one-part name from a to b, where a table is lent.
pub fn put_name(t: &mut [u32], s: &[u8], slot: Slot, a: usize, b: usize)
    requires { Room 4 s.now a (seat slot) × (a < b) × (b ≤ length s.now) }
    ensures { Spelt 0 (seat slot) (one_name (bytes_from s.now a (b - a))) a b t.old t.new }
{
    if t.len() == 0 {
        return;
    }
    let dash = word::dashed(s, a, b);
    let kind = name_kind(s, a, b, dash);
    table::put_node(
        t,
        slot,
        Node {
            kind,
            start: a,
            end: b,
            extra: usize::from(dash),
            below: 0,
        },
    );
}

// The row of a member's object from a to b at the word k, where a table is lent.
fn put_object(t: &mut [u32], s: &[u8], k: usize, slot: Slot, a: usize, b: usize)
    requires { Room 4 s.now a (seat slot) × (a ≤ b) × (b ≤ length s.now) }
    ensures { Spelt k (seat slot) (object_name (bytes_from s.now a (b - a))) a b t.old t.new }
{
    if t.len() == 0 {
        return;
    }
    let dash = word::dashed(s, a, b);
    let kind = object_kind(s, a, b);
    table::put_node_at(
        t,
        k,
        slot,
        Node {
            kind,
            start: a,
            end: b,
            extra: usize::from(dash),
            below: 0,
        },
    );
}

// The row of any other part from a to b at the word k, where a table is lent.
fn put_part(t: &mut [u32], s: &[u8], k: usize, slot: Slot, a: usize, b: usize)
    requires { Room 4 s.now a (seat slot) × (a ≤ b) × (b ≤ length s.now) }
    ensures { Spelt k (seat slot) (node kinds.other_part (dashed (bytes_from s.now a (b - a)))) a b t.old t.new }
{
    if t.len() == 0 {
        return;
    }
    let dash = word::dashed(s, a, b);
    table::put_node_at(
        t,
        k,
        slot,
        Node {
            kind: Kind::OtherPart,
            start: a,
            end: b,
            extra: usize::from(dash),
            below: 0,
        },
    );
}

// A part that is no whole name, with its row at the word k.
fn parse_part(
    t: &mut [u32],
    s: &[u8],
    k: usize,
    slot: Slot,
    at: usize,
) -> Result<(usize, usize), Refusal>
    requires { Room 4 s.now at (seat slot) }
    ensures { Made (counted_in result) s.now other_part at 1 (seat slot) k t.old t.new }
{
    let e = word::parse_jsx_identifier(s, at)?;
    put_part(t, s, k, slot, at, e);
    Ok((e, 1))
}

// Blanks, and a part with its row at the word k.
fn parse_next_part(
    t: &mut [u32],
    s: &[u8],
    k: usize,
    slot: Slot,
    at: usize,
) -> Result<(usize, usize), Refusal>
    requires { Room 4 s.now at (seat slot) }
    ensures { Made (counted_in result) s.now (blanks ⨾ other_part) at 1 (seat slot) k t.old t.new }
{
    let p = blank::skip_blanks(s, at)?;
    parse_part(t, s, k, slot, p)
}

// The rest of `part:part`, behind its first part and the blanks up to the colon.
pub fn parse_jsx_namespaced_name(
    t: &mut [u32],
    s: &[u8],
    first: First,
    slot: Slot,
) -> Result<(usize, usize), Refusal>
    requires { Room 3 s.now first.at (seat slot) × Prefix s.now first }
    ensures { Made (counted_in result) s.now namespaced first.at 1 (seat slot) 0 t.old t.new }
{
    let inside = slot.inside();
    put_part(t, s, ROW_WORDS, inside, first.at, first.end);
    let (z, k) = parse_next_part(t, s, 2 * ROW_WORDS, inside.behind(1), first.next + 1)?;
    table::put_node(
        t,
        slot,
        Node {
            kind: Kind::Namespaced,
            start: first.at,
            end: z,
            extra: 0,
            below: k + 1,
        },
    );
    Ok((z, k + 2))
}

// A part behind a dot, with its row at the word k: with a dash it is refused, from its start to its end.
fn parse_dotted_part(
    t: &mut [u32],
    s: &[u8],
    k: usize,
    slot: Slot,
    at: usize,
) -> Result<(usize, usize), Refusal>
    requires { Room 4 s.now at (seat slot) }
    ensures { Made (counted_in result) s.now dotted_part at 1 (seat slot) k t.old t.new }
{
    let e = word::parse_jsx_identifier(s, at)?;
    if word::dashed(s, at, e) {
        return Err(Reason::DashAfterDot.over(at, e));
    }
    put_part(t, s, k, slot, at, e);
    Ok((e, 1))
}

// The parts behind a member's object, each behind a dot, as many as there are.
fn parse_dotted_parts(
    t: &mut [u32],
    s: &[u8],
    at: usize,
    slot: Slot,
) -> Result<(usize, usize), Refusal>
    requires { Room 4 s.now at (seat slot) }
    ensures { Made (counted_in result) s.now (many dotted) at 0 (seat slot) 0 t.old t.new }
{
    let mut p = at; // the last part ends here
    let mut m = 0; // as many parts were read
    loop {
        let q = blank::skip_blanks(s, p)?;
        if lex::byte(s, q) != DOT {
            return Ok((p, m));
        }
        let a = blank::skip_blanks(s, q + 1)?;
        let (z, k) = parse_dotted_part(t, s, ROW_WORDS * m, slot.behind(m), a)?;
        p = z;
        m = m + k;
    }
}

// `part.part..`, whose first part ends at e.
pub fn parse_jsx_member_expression(
    t: &mut [u32],
    s: &[u8],
    at: usize,
    e: usize,
    slot: Slot,
) -> Result<(usize, usize), Refusal>
    requires { Room 3 s.now at (seat slot) × Past e s.now name_part at 1 }
    ensures { Made (counted_in result) s.now member at 1 (seat slot) 0 t.old t.new }
{
    let inside = slot.inside();
    put_object(t, s, ROW_WORDS, inside, at, e);
    let i = table::start(t.len(), 2 * ROW_WORDS);
    let (z, m) = parse_dotted_parts(&mut t[i..], s, e, inside.behind(1))?;
    table::put_node(
        t,
        slot,
        Node {
            kind: Kind::Member,
            start: at,
            end: z,
            extra: 0,
            below: m + 1,
        },
    );
    Ok((z, m + 2))
}

// An element's name: one part, `part:part` or `part.part..`, by the byte behind the first part and its blanks.
pub fn parse_jsx_element_name(
    t: &mut [u32],
    s: &[u8],
    at: usize,
    slot: Slot,
) -> Result<(usize, usize), Refusal>
    requires { Room 3 s.now at (seat slot) }
    ensures { Made (counted_in result) s.now element_name at 1 (seat slot) 0 t.old t.new }
{
    let e = word::parse_jsx_identifier(s, at)?;
    let q = blank::skip_blanks(s, e)?;
    let b = lex::byte(s, q);
    if b == COLON {
        return parse_jsx_namespaced_name(
            t,
            s,
            First {
                at,
                end: e,
                next: q,
            },
            slot,
        );
    }
    if b == DOT {
        return parse_jsx_member_expression(t, s, at, e, slot);
    }
    put_name(t, s, slot, at, e);
    Ok((e, 1))
}

// An attribute's name: one part or `part:part`.
pub fn parse_jsx_attribute_name(
    t: &mut [u32],
    s: &[u8],
    at: usize,
    slot: Slot,
) -> Result<(usize, usize), Refusal>
    requires { Room 3 s.now at (seat slot) }
    ensures { Made (counted_in result) s.now attribute_name at 1 (seat slot) 0 t.old t.new }
{
    let e = word::parse_jsx_identifier(s, at)?;
    let q = blank::skip_blanks(s, e)?;
    if lex::byte(s, q) == COLON {
        return parse_jsx_namespaced_name(
            t,
            s,
            First {
                at,
                end: e,
                next: q,
            },
            slot,
        );
    }
    put_part(t, s, 0, slot, at, e);
    Ok((e, 1))
}
