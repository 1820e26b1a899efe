// The readers that call each other: expressions hold elements, elements hold attributes and children, and these hold
// expressions. `d` is how many levels of depth may still be entered; a reader's number is how many records it has made.
#![tactic(auto)]

ghost use Rattle.std.specs.Prelude.{◌≡◌, ◌+◌, ◌≤◌, ◌<◌, ◌^◌, length};
ghost use Rattle.rules.specs.Rule.{many, ◌⨾◌};
ghost use Rattle.rules.specs.Parse.{byte_at};
ghost use Rattle.jsx.specs.Blank.{pass};
ghost use Rattle.jsx.specs.Expression.{primary as primary_rule, postfix as postfix_rule, postfix_turn, unary as unary_rule};
ghost use Rattle.jsx.specs.Expression.{either as either_rule, conditional, question, expression, argument_turn};
ghost use Rattle.jsx.specs.Expression.{no_sibling};
ghost use Rattle.jsx.specs.Braces.{container, spread as spread_rule};
ghost use Rattle.jsx.specs.Tag.{value as value_rule, attribute, attributes};
ghost use Rattle.jsx.specs.Element.{children as children_rule, fragment_in, named_in};
ghost use Rattle.jsx.specs.Depth.{within};
ghost use Rattle.lex.specs.Kind.{kind_number};
ghost use Rattle.lex.specs.Answer.{number, counted_in, counted_in_as};
ghost use Rattle.lex.specs.Contract.{Past};
ghost use Rattle.table.specs.Slot.{seat};
ghost use Rattle.table.specs.Reader.{Room, Made};
ghost use Rattle.closing.specs.Close.{Opening};
ghost use Rattle.reader.specs.Cut.{group_by, arguments, tail_of, operand_turn, arms_of, in_container, in_spread};
ghost use Rattle.reader.specs.Cut.{in_attribute};
ghost use Rattle.reader.specs.Contract.{TagMade, Ready, Content, ChildMade, tagged_in};

use closing::Opened;
use lex::bytes::{
    BANG, CLOSE_BRACE, CLOSE_BRACKET, CLOSE_PAREN, DASH, DOT, END, GREATER, LESS, OPEN_BRACE,
    OPEN_BRACKET, OPEN_PAREN, QUESTION, SLASH,
};
use lex::kind::Kind;
use lex::numbered::{RefusedAs, Refusing};
use lex::refusal::{Reason, Refusal};
use table::{ROW_WORDS, Slot};

// What the reader of an opening tag has read: the tag's end, the records in it, its name's end and the name's records,
// and whether a content follows.
#[derive(Clone, Copy)]
pub struct Tagged {
    pub end: usize,
    pub records: usize,
    pub name_end: usize,
    pub name_records: usize,
    pub goes_on: bool,
}

// ---- expressions

// `(conditional)` or `[conditional]`, by the byte that closes it.
#[cycle(reading)]
fn group(
    t: &mut [u32],
    s: &[u8],
    at: usize,
    close: u32,
    d: usize,
    slot: Slot,
) -> Result<(usize, usize), Refusal>
    requires { Room 3 s.now at (seat slot) × (at < length s.now) × (close < 256) }
    ensures { Made (counted_in result) s.now (group_by close d) at 1 (seat slot) 0 t.old t.new }
{
    if d == 0 {
        return Err(Reason::TooDeep.at(at));
    }
    let p = blank::pass(s, at)?;
    let (e, m) = cond(t, s, p, d - 1, slot)?;
    let z = tag::close_by(s, e, close)?;
    Ok((z, m))
}

// A call: its parenthesis, and nothing or conditionals in it.
#[cycle(reading)]
fn call(t: &mut [u32], s: &[u8], at: usize, d: usize, slot: Slot) -> Result<(usize, usize), Refusal>
    requires { Room 3 s.now at (seat slot) × (at < length s.now) }
    ensures { Made (counted_in result) s.now (within d).call at 1 (seat slot) 0 t.old t.new }
{
    if d == 0 {
        return Err(Reason::TooDeep.at(at));
    }
    let p = blank::pass(s, at)?;
    if lex::byte(s, p) == CLOSE_PAREN {
        return Ok((p + 1, 0));
    }
    args(t, s, p, d - 1, slot)
}

// One or more conditionals with commas between them, and `)`.
#[cycle(reading)]
fn args(t: &mut [u32], s: &[u8], at: usize, d: usize, slot: Slot) -> Result<(usize, usize), Refusal>
    requires { Room 3 s.now at (seat slot) }
    ensures { Made (counted_in result) s.now (arguments (within d)) at 1 (seat slot) 0 t.old t.new }
{
    let (e, k) = cond(t, s, at, d, slot)?;
    let i = table::start(t.len(), ROW_WORDS * k);
    let (q, m) = more(&mut t[i..], s, e, d, slot.behind(k))?;
    let z = lex::expect(s, q, CLOSE_PAREN)?;
    Ok((z, k + m))
}

// Conditionals behind the first of a call, each behind a comma, as many as there are.
#[cycle(reading)]
fn more(t: &mut [u32], s: &[u8], at: usize, d: usize, slot: Slot) -> Result<(usize, usize), Refusal>
    requires { Room 3 s.now at (seat slot) }
    ensures { Made (counted_in result) s.now (many (argument_turn (within d))) at 0 (seat slot) 0
        t.old t.new }
{
    let mut p = at; // the last one ends here
    let mut m = 0; // as many records were made
    loop {
        let (q, next) = token::comma(s, p)?;
        if !next {
            return Ok((q, m));
        }
        let i = table::start(t.len(), ROW_WORDS * m);
        let (z, k) = cond(&mut t[i..], s, q, d, slot.behind(m))?;
        p = z;
        m = m + k;
    }
}

// A name, a number, a string or `(conditional)`.
#[cycle(reading)]
fn prim(t: &mut [u32], s: &[u8], at: usize, d: usize, slot: Slot) -> Result<(usize, usize), Refusal>
    requires { Room 3 s.now at (seat slot) }
    ensures { Made (counted_in result) s.now (primary_rule (within d)) at 1 (seat slot) 0 t.old t.new }
{
    let b = lex::byte(s, at);
    if word::opens_name(b) {
        return Ok((refused::primary_word(s, at)?, 0));
    }
    if word::is_digit(b) {
        return Ok((number::read_number(s, at)?, 0));
    }
    if text::is_quote(b) {
        return Ok((text::read_string(s, at)?, 0));
    }
    if b == OPEN_PAREN {
        return group(t, s, at, CLOSE_PAREN, d, slot);
    }
    Err(lex::unexpected(s, at))
}

// `.name`, `[conditional]` or a call.
#[cycle(reading)]
fn tail(t: &mut [u32], s: &[u8], at: usize, d: usize, slot: Slot) -> Result<(usize, usize), Refusal>
    requires { Room 3 s.now at (seat slot) }
    ensures { Made (counted_in result) s.now (tail_of (within d)) at 1 (seat slot) 0 t.old t.new }
{
    let b = lex::byte(s, at);
    if b == DOT {
        return Ok((token::dot_word(s, at)?, 0));
    }
    if b == OPEN_BRACKET {
        return group(t, s, at, CLOSE_BRACKET, d, slot);
    }
    if b == OPEN_PAREN {
        return call(t, s, at, d, slot);
    }
    Err(lex::unexpected(s, at))
}

// What stands behind a primary: `.name`, `[conditional]` and calls, as many as there are.
#[cycle(reading)]
fn tails(
    t: &mut [u32],
    s: &[u8],
    at: usize,
    d: usize,
    slot: Slot,
) -> Result<(usize, usize), Refusal>
    requires { Room 3 s.now at (seat slot) }
    ensures { Made (counted_in result) s.now (many (postfix_turn (within d))) at 0 (seat slot) 0
        t.old t.new }
{
    let mut p = at; // the last one ends here
    let mut m = 0; // as many records were made
    loop {
        let Some(q) = token::suffix(s, p)? else {
            return Ok((p, m));
        };
        let i = table::start(t.len(), ROW_WORDS * m);
        let (z, k) = tail(&mut t[i..], s, q, d, slot.behind(m))?;
        p = z;
        m = m + k;
    }
}

// A primary and what stands behind it.
#[cycle(reading)]
fn postfix(
    t: &mut [u32],
    s: &[u8],
    at: usize,
    d: usize,
    slot: Slot,
) -> Result<(usize, usize), Refusal>
    requires { Room 3 s.now at (seat slot) }
    ensures { Made (counted_in result) s.now (postfix_rule (within d)) at 1 (seat slot) 0 t.old t.new }
{
    let (e, k) = prim(t, s, at, d, slot)?;
    let i = table::start(t.len(), ROW_WORDS * k);
    let (z, m) = tails(&mut t[i..], s, e, d, slot.behind(k))?;
    Ok((z, k + m))
}

// `!` or `-` and its operand.
#[cycle(reading)]
fn prefix(
    t: &mut [u32],
    s: &[u8],
    at: usize,
    d: usize,
    slot: Slot,
) -> Result<(usize, usize), Refusal>
    requires { Room 3 s.now at (seat slot) × (at < length s.now) }
    ensures { Made (counted_in result) s.now (within d).prefix at 1 (seat slot) 0 t.old t.new }
{
    if d == 0 {
        return Err(Reason::TooDeep.at(at));
    }
    let p = blank::pass(s, at)?;
    unary(t, s, p, d - 1, slot)
}

// An element or a fragment that is no child, and nothing behind it that n or 12 refuses.
#[cycle(reading)]
fn lone(
    t: &mut [u32],
    s: &[u8],
    at: usize,
    n: Reason,
    d: usize,
    slot: Slot,
) -> Result<(usize, usize), Refusal>
    requires { Room 3 s.now at (seat slot) × (at < length s.now) }
    ensures { Made (counted_in result) s.now ((within d).element ⨾ no_sibling (number n)) at 1 (seat slot) 0
        t.old t.new }
{
    let a = blank::pass(s, at)?;
    let (e, m) = elem(t, s, at, a, d, slot)?;
    let z = tag::no_sibling(s, e, n)?;
    Ok((z, m))
}

// `!` or `-` before a unary, an element or a fragment, or a postfix.
#[cycle(reading)]
fn unary(
    t: &mut [u32],
    s: &[u8],
    at: usize,
    d: usize,
    slot: Slot,
) -> Result<(usize, usize), Refusal>
    requires { Room 3 s.now at (seat slot) }
    ensures { Made (counted_in result) s.now (unary_rule (within d)) at 1 (seat slot) 0 t.old t.new }
{
    let b = lex::byte(s, at);
    if b == BANG {
        return prefix(t, s, at, d, slot);
    }
    if b == DASH {
        if lex::two_at(s, at, DASH, DASH) {
            return Err(Reason::Unexpected.at(at));
        }
        return prefix(t, s, at, d, slot);
    }
    if b == LESS {
        return lone(t, s, at, Reason::Unexpected, d, slot);
    }
    postfix(t, s, at, d, slot)
}

// Unaries behind the first, each behind an operator, as many as there are.
#[cycle(reading)]
fn joins(
    t: &mut [u32],
    s: &[u8],
    at: usize,
    d: usize,
    slot: Slot,
) -> Result<(usize, usize), Refusal>
    requires { Room 3 s.now at (seat slot) }
    ensures { Made (counted_in result) s.now (many (operand_turn (within d))) at 0 (seat slot) 0
        t.old t.new }
{
    let mut p = at; // the last one ends here
    let mut m = 0; // as many records were made
    loop {
        let Some(q) = token::operator(s, p)? else {
            return Ok((p, m));
        };
        let i = table::start(t.len(), ROW_WORDS * m);
        let (z, k) = unary(&mut t[i..], s, q, d, slot.behind(m))?;
        p = z;
        m = m + k;
    }
}

// Unaries with operators between them: every level from `*` to `||`.
#[cycle(reading)]
fn either(
    t: &mut [u32],
    s: &[u8],
    at: usize,
    d: usize,
    slot: Slot,
) -> Result<(usize, usize), Refusal>
    requires { Room 3 s.now at (seat slot) }
    ensures { Made (counted_in result) s.now (either_rule (within d)) at 1 (seat slot) 0 t.old t.new }
{
    let (e, k) = unary(t, s, at, d, slot)?;
    let i = table::start(t.len(), ROW_WORDS * k);
    let (z, m) = joins(&mut t[i..], s, e, d, slot.behind(k))?;
    Ok((z, k + m))
}

// A conditional: an either, and a choice if a `?` stands behind it.
#[cycle(reading)]
fn cond(t: &mut [u32], s: &[u8], at: usize, d: usize, slot: Slot) -> Result<(usize, usize), Refusal>
    requires { Room 3 s.now at (seat slot) }
    ensures { Made (counted_in result) s.now (conditional (within d)) at 1 (seat slot) 0 t.old t.new }
{
    let (e, k) = either(t, s, at, d, slot)?;
    let q = blank::skip_blanks(s, e)?;
    if lex::byte(s, q) != QUESTION {
        return Ok((e, k));
    }
    let i = table::start(t.len(), ROW_WORDS * k);
    let (z, m) = choice(&mut t[i..], s, q, d, slot.behind(k))?;
    Ok((z, k + m))
}

// `?` conditional `:` conditional, whose `?` was seen; `?.` and `??` are refused.
#[cycle(reading)]
fn choice(
    t: &mut [u32],
    s: &[u8],
    at: usize,
    d: usize,
    slot: Slot,
) -> Result<(usize, usize), Refusal>
    requires { Room 3 s.now at (seat slot) × (at < length s.now) }
    ensures { Made (counted_in result) s.now (question (within d)) at 1 (seat slot) 0 t.old t.new }
{
    if lex::two_at(s, at, QUESTION, DOT) {
        return Err(Reason::Unexpected.at(at));
    }
    if lex::two_at(s, at, QUESTION, QUESTION) {
        return Err(Reason::Unexpected.at(at));
    }
    if d == 0 {
        return Err(Reason::TooDeep.at(at));
    }
    let p = blank::pass(s, at)?;
    arms(t, s, p, d - 1, slot)
}

// Conditional `:` conditional.
#[cycle(reading)]
fn arms(t: &mut [u32], s: &[u8], at: usize, d: usize, slot: Slot) -> Result<(usize, usize), Refusal>
    requires { Room 3 s.now at (seat slot) }
    ensures { Made (counted_in result) s.now (arms_of (within d)) at 1 (seat slot) 0 t.old t.new }
{
    let (e, k) = cond(t, s, at, d, slot)?;
    let p = token::colon(s, e)?;
    let i = table::start(t.len(), ROW_WORDS * k);
    let (z, m) = cond(&mut t[i..], s, p, d, slot.behind(k))?;
    Ok((z, k + m))
}

// An expression: a conditional and its record.
#[cycle(reading)]
fn expr(t: &mut [u32], s: &[u8], at: usize, d: usize, slot: Slot) -> Result<(usize, usize), Refusal>
    requires { Room 2 s.now at (seat slot) }
    ensures { Made (counted_in result) s.now (expression (within d)) at 1 (seat slot) 0 t.old t.new }
{
    let i = table::start(t.len(), ROW_WORDS);
    let (e, m) = cond(&mut t[i..], s, at, d, slot.inside())?;
    row::put_plain(t, Kind::Expression, at, e, m, slot);
    Ok((e, m + 1))
}

// ---- braces, whose first byte is at `at`, with the blanks behind it up to q

// An expression and `}`.
#[cycle(reading)]
fn in_held(
    t: &mut [u32],
    s: &[u8],
    at: usize,
    d: usize,
    slot: Slot,
) -> Result<(usize, usize), Refusal>
    requires { Room 2 s.now at (seat slot) }
    ensures { Made (counted_in result) s.now (in_container (within d)) at 2 (seat slot) 0 t.old t.new }
{
    let (e, m) = expr(t, s, at, d, slot)?;
    let z = token::shut_braces(s, e)?;
    Ok((z, m))
}

// `{expression}` and its record.
#[cycle(reading)]
fn held(
    t: &mut [u32],
    s: &[u8],
    at: usize,
    q: usize,
    d: usize,
    slot: Slot,
) -> Result<(usize, usize), Refusal>
    requires { Room 3 s.now at (seat slot) × Past q s.now pass at 1 }
    ensures { Made (counted_in result) s.now (container (within d)) at 3 (seat slot) 0 t.old t.new }
{
    let i = table::start(t.len(), ROW_WORDS);
    let (z, m) = in_held(&mut t[i..], s, q, d, slot.inside())?;
    row::put_plain(t, Kind::Container, at, z, m, slot);
    Ok((z, m + 1))
}

// `...`, an expression and `}`.
#[cycle(reading)]
fn in_rest(
    t: &mut [u32],
    s: &[u8],
    at: usize,
    d: usize,
    slot: Slot,
) -> Result<(usize, usize), Refusal>
    requires { Room 2 s.now at (seat slot) }
    ensures { Made (counted_in result) s.now (in_spread (within d)) at 2 (seat slot) 0 t.old t.new }
{
    let p = token::dots(s, at)?;
    let (e, m) = expr(t, s, p, d, slot)?;
    let z = tag::close_by(s, e, CLOSE_BRACE)?;
    Ok((z, m))
}

// `{...expression}` and its record, of this kind.
#[cycle(reading)]
fn spread(
    t: &mut [u32],
    s: &[u8],
    at: usize,
    q: usize,
    kind: Kind,
    d: usize,
    slot: Slot,
) -> Result<(usize, usize), Refusal>
    requires { Room 3 s.now at (seat slot) × Past q s.now pass at 1 × (kind_number kind < 2 ^ 32) }
    ensures { Made (counted_in result) s.now (spread_rule (kind_number kind) (within d)) at 3 (seat slot) 0
        t.old t.new }
{
    let i = table::start(t.len(), ROW_WORDS);
    let (z, m) = in_rest(&mut t[i..], s, q, d, slot.inside())?;
    row::put_plain(t, kind, at, z, m, slot);
    Ok((z, m + 1))
}

// ---- attributes

// A value: a quoted string, `{expression}`, an element or a fragment.
#[cycle(reading)]
fn value(
    t: &mut [u32],
    s: &[u8],
    at: usize,
    d: usize,
    slot: Slot,
) -> Result<(usize, usize), Refusal>
    requires { Room 3 s.now at (seat slot) }
    ensures { Made (counted_in result) s.now (value_rule (within d)) at 1 (seat slot) 0 t.old t.new }
{
    let b = lex::byte(s, at);
    if text::is_quote(b) {
        return tag::quoted_value(t, s, at, slot);
    }
    if b == OPEN_BRACE {
        if d == 0 {
            return Err(Reason::TooDeep.at(at));
        }
        let q = blank::pass(s, at)?;
        if lex::byte(s, q) == CLOSE_BRACE {
            return Err(Reason::EmptyValue.over(at, q + 1));
        }
        return held(t, s, at, q, d - 1, slot);
    }
    if b == LESS {
        return lone(t, s, at, Reason::Unexpected, d, slot);
    }
    Err(lex::unexpected(s, at))
}

// A name, and a value if `=` stands behind it.
#[cycle(reading)]
fn in_attr(
    t: &mut [u32],
    s: &[u8],
    at: usize,
    d: usize,
    slot: Slot,
) -> Result<(usize, usize), Refusal>
    requires { Room 3 s.now at (seat slot) }
    ensures { Made (counted_in result) s.now (in_attribute (within d)) at 1 (seat slot) 0 t.old t.new }
{
    let (e, k) = name::parse_jsx_attribute_name(t, s, at, slot)?;
    let Some(p) = token::assign(s, e)? else {
        return Ok((e, k));
    };
    let i = table::start(t.len(), ROW_WORDS * k);
    let (z, m) = value(&mut t[i..], s, p, d, slot.behind(k))?;
    Ok((z, k + m))
}

// An attribute and its record: `{...expression}`, or a name and a value.
#[cycle(reading)]
fn attr(t: &mut [u32], s: &[u8], at: usize, d: usize, slot: Slot) -> Result<(usize, usize), Refusal>
    requires { Room 2 s.now at (seat slot) }
    ensures { Made (counted_in result) s.now (attribute (within d)) at 1 (seat slot) 0 t.old t.new }
{
    if lex::byte(s, at) == OPEN_BRACE {
        if d == 0 {
            return Err(Reason::TooDeep.at(at));
        }
        let q = blank::pass(s, at)?;
        return spread(t, s, at, q, Kind::SpreadAttribute, d - 1, slot);
    }
    let i = table::start(t.len(), ROW_WORDS);
    let (z, m) = in_attr(&mut t[i..], s, at, d, slot.inside())?;
    row::put_plain(t, Kind::Attribute, at, z, m, slot);
    Ok((z, m + 1))
}

// Attributes, as many as there are, up to `/` or `>`.
#[cycle(reading)]
fn attrs(
    t: &mut [u32],
    s: &[u8],
    at: usize,
    d: usize,
    slot: Slot,
) -> Result<(usize, usize), Refusal>
    requires { Room 2 s.now at (seat slot) }
    ensures { Made (counted_in result) s.now (attributes (within d)) at 0 (seat slot) 0 t.old t.new }
{
    let mut p = at; // the last one ends here
    let mut m = 0; // as many records were made
    loop {
        let (q, next) = token::attribute_at(s, p)?;
        if !next {
            return Ok((q, m));
        }
        let i = table::start(t.len(), ROW_WORDS * m);
        let (z, k) = attr(&mut t[i..], s, q, d, slot.behind(m))?;
        p = z;
        m = m + k;
    }
}

// ---- elements and fragments, whose first byte is at `at`, with the blanks behind it up to a

// The inside of an opening tag from its name on: the name, attributes, and the tag's end.
#[cycle(reading)]
fn in_tag(t: &mut [u32], s: &[u8], a: usize, d: usize, slot: Slot) -> Result<Tagged, Refusal>
    requires { Room 3 s.now a (seat slot) }
    ensures { TagMade (tagged_in result) s.now (within d) a (seat slot) t.old t.new }
{
    let (e, k) = name::parse_jsx_element_name(t, s, a, slot)?;
    let i = table::start(t.len(), ROW_WORDS * k);
    let (p, m) = attrs(&mut t[i..], s, e, d, slot.behind(k))?;
    let (z, goes_on) = tag::tag_end(s, p)?;
    Ok(Tagged {
        end: z,
        records: k + m,
        name_end: e,
        name_records: k,
        goes_on,
    })
}

// The children and the closing tag of an element whose opening tag ends at p, with v records below the element so far;
// then the element's record.
#[cycle(reading)]
fn content(
    t: &mut [u32],
    s: &[u8],
    name: Opened,
    p: usize,
    v: usize,
    d: usize,
    slot: Slot,
) -> Result<(usize, usize), Refusal>
    requires { Opening s.now name × Ready s.now name.at p v (seat slot) }
    ensures { Content (counted_in result) s.now (within d) name p v (seat slot) t.old t.new }
{
    let i = table::start(t.len(), ROW_WORDS * (v + 1));
    let (c, k) = children(&mut t[i..], s, p, d, slot.inside().behind(v))?;
    row::shut(t, s, name, c, v + k, slot)
}

// An element and its record, with d levels inside it.
#[cycle(reading)]
fn named(
    t: &mut [u32],
    s: &[u8],
    at: usize,
    a: usize,
    d: usize,
    slot: Slot,
) -> Result<(usize, usize), Refusal>
    requires { Room 3 s.now at (seat slot) × Past a s.now pass at 1 }
    ensures { Made (counted_in result) s.now (named_in d (within d)) at 1 (seat slot) 0 t.old t.new }
{
    let i = table::start(t.len(), 2 * ROW_WORDS);
    let tag = in_tag(&mut t[i..], s, a, d, slot.inside().inside())?;
    row::put_opening(t, at, tag.end, tag.records, slot);
    if !tag.goes_on {
        row::put_plain(t, Kind::Element, at, tag.end, tag.records + 1, slot);
        return Ok((tag.end, tag.records + 2));
    }
    content(
        t,
        s,
        Opened {
            at,
            start: a,
            end: tag.name_end,
            count: tag.name_records,
        },
        tag.end,
        tag.records + 1,
        d,
        slot,
    )
}

// A fragment and its record, with d levels inside it.
#[cycle(reading)]
fn frag(
    t: &mut [u32],
    s: &[u8],
    at: usize,
    a: usize,
    d: usize,
    slot: Slot,
) -> Result<(usize, usize), Refusal>
    requires { Room 3 s.now at (seat slot) × Past a s.now pass at 1 × (byte_at s.now a ≡ 62) }
    ensures { Made (counted_in result) s.now (fragment_in d (within d)) at 1 (seat slot) 0 t.old t.new }
{
    row::put_opening(t, at, a + 1, 0, slot);
    let i = table::start(t.len(), 2 * ROW_WORDS);
    let (c, k) = children(&mut t[i..], s, a + 1, d, slot.inside().behind(1))?;
    row::shut_fragment(t, s, at, a + 1, c, k + 1, slot)
}

// An element or a fragment.
#[cycle(reading)]
fn elem(
    t: &mut [u32],
    s: &[u8],
    at: usize,
    a: usize,
    d: usize,
    slot: Slot,
) -> Result<(usize, usize), Refusal>
    requires { Room 3 s.now at (seat slot) × Past a s.now pass at 1 }
    ensures { Made (counted_in result) s.now (within d).element at 1 (seat slot) 0 t.old t.new }
{
    if d == 0 {
        return Err(token::too_deep(s, at, a));
    }
    if lex::byte(s, a) == GREATER {
        return frag(t, s, at, a, d - 1, slot);
    }
    named(t, s, at, a, d - 1, slot)
}

// One child; or it stays where it is, and the children end there.
#[cycle(reading)]
fn child(
    t: &mut [u32],
    s: &[u8],
    at: usize,
    d: usize,
    slot: Slot,
) -> Result<(usize, usize), Refusal>
    requires { Room 3 s.now at (seat slot) }
    ensures { ChildMade (counted_in result) s.now (within d) at (seat slot) t.old t.new }
{
    let b = lex::byte(s, at);
    if text::in_text(b) {
        return row::text(t, s, at, slot);
    }
    if b == LESS {
        let a = blank::pass(s, at)?;
        if lex::byte(s, a) == SLASH {
            return Ok((at, 0));
        }
        return elem(t, s, at, a, d, slot);
    }
    if b == OPEN_BRACE {
        if d == 0 {
            return Err(Reason::TooDeep.at(at));
        }
        let q = blank::pass(s, at)?;
        let c = lex::byte(s, q);
        if c == CLOSE_BRACE {
            return row::empty_braces(t, s, at, q, slot);
        }
        if c == DOT {
            return spread(t, s, at, q, Kind::SpreadChild, d - 1, slot);
        }
        return held(t, s, at, q, d - 1, slot);
    }
    if b == END {
        return Ok((at, 0));
    }
    Err(Reason::StrayInText.at(at))
}

// Children, as many as there are, up to the end or a `<` that a `/` follows.
#[cycle(reading)]
fn children(
    t: &mut [u32],
    s: &[u8],
    at: usize,
    d: usize,
    slot: Slot,
) -> Result<(usize, usize), Refusal>
    requires { Room 3 s.now at (seat slot) }
    ensures { Made (counted_in result) s.now (children_rule (within d)) at 0 (seat slot) 0 t.old t.new }
{
    let mut p = at; // the last one ends here
    let mut m = 0; // as many records were made
    loop {
        let i = table::start(t.len(), ROW_WORDS * m);
        let (z, k) = child(&mut t[i..], s, p, d, slot.behind(m))?;
        if z == p {
            return Ok((p, m));
        }
        p = z;
        m = m + k;
    }
}

// ---- for those outside the cycle

// An element or a fragment that is no child, and nothing behind it that n or 12 refuses: as `lone` does, for any n.
pub fn parse_jsx_element<N: Refusing>(
    t: &mut [u32],
    s: &[u8],
    at: usize,
    n: N,
    d: usize,
    slot: Slot,
) -> Result<(usize, usize), RefusedAs<N>>
    requires { Room 3 s.now at (seat slot) × (at < length s.now) }
    ensures { Made (counted_in_as N.number_of result) s.now ((within d).element ⨾ no_sibling (N.number_of n)) at 1
        (seat slot) 0 t.old t.new }
{
    let a = blank::pass(s, at)?;
    let (e, m) = elem(t, s, at, a, d, slot)?;
    let z = tag::no_sibling(s, e, n)?;
    Ok((z, m))
}

// Children, as many as there are.
pub fn parse_jsx_children(
    t: &mut [u32],
    s: &[u8],
    at: usize,
    d: usize,
    slot: Slot,
) -> Result<(usize, usize), Refusal>
    requires { Room 3 s.now at (seat slot) }
    ensures { Made (counted_in result) s.now (children_rule (within d)) at 0 (seat slot) 0 t.old t.new }
{
    children(t, s, at, d, slot)
}
