// Rows that readers of the cycle write and that need none of them: a row by its kind, an opening tag's, those of a text
// and of empty braces; and the ends of an element and of a fragment, with their records.
#![tactic(auto)]

ghost use Rattle.std.specs.Prelude.{◌≡◌, true, ◌-◌, ◌<◌, ◌≤◌, ◌^◌};
ghost use Rattle.rules.specs.Parse.{byte_at};
ghost use Rattle.rules.specs.Record.{row_words};
ghost use Rattle.jsx.specs.Blank.{pass};
ghost use Rattle.jsx.specs.Text.{in_text, text as text_rule};
ghost use Rattle.jsx.specs.Braces.{empty_braces};
ghost use Rattle.jsx.specs.Closing.{no_name};
ghost use Rattle.jsx.specs.Kind as kinds;
ghost use Rattle.lex.specs.Kind.{kind_number};
ghost use Rattle.lex.specs.Answer.{counted_in};
ghost use Rattle.lex.specs.Contract.{Past};
ghost use Rattle.table.specs.Slot.{seat, seat_inside, seat_behind};
ghost use Rattle.table.specs.Contract.{Words, Stored};
ghost use Rattle.table.specs.Reader.{Room, Made};
ghost use Rattle.closing.specs.Close.{Opening, closing, closing_named};
ghost use Rattle.row.specs.Shut.{Shut};

use closing::Opened;
use lex::kind::Kind;
use lex::refusal::Refusal;
use table::{Node, ROW_WORDS, Slot};

// The row of a record of this kind from `at` to z, with m records below it and 0 for its extra word.
pub fn put_plain(t: &mut [u32], kind: Kind, at: usize, z: usize, m: usize, slot: Slot)
    requires { Words (seat slot) (kind_number kind) at z 0 m }
    ensures { Stored 0 (seat slot) (kind_number kind) at z 0 m t.old t.new }
{
    table::put_node(
        t,
        slot,
        Node {
            kind,
            start: at,
            end: z,
            extra: 0,
            below: m,
        },
    );
}

// The row of an opening tag from `at` to z, with m records in it, behind that of the element or fragment in the slot.
pub fn put_opening(t: &mut [u32], at: usize, z: usize, m: usize, slot: Slot)
    requires { Words (seat_inside (seat slot)) kinds.opening_tag at z 0 m }
    ensures { Stored row_words (seat_inside (seat slot)) kinds.opening_tag at z 0 m t.old t.new }
{
    table::put_node_at(
        t,
        ROW_WORDS,
        slot.inside(),
        Node {
            kind: Kind::OpeningTag,
            start: at,
            end: z,
            extra: 0,
            below: m,
        },
    );
}

// A text, whose first byte was seen, and its record.
pub fn text(t: &mut [u32], s: &[u8], at: usize, slot: Slot) -> Result<(usize, usize), Refusal>
    requires { Room 3 s.now at (seat slot) × (in_text (byte_at s.now at) ≡ true) }
    ensures { Made (counted_in result) s.now text_rule at 1 (seat slot) 0 t.old t.new }
{
    let e = text::read_jsx_text(s, at);
    put_plain(t, Kind::Text, at, e, 0, slot);
    Ok((e, 1))
}

// Empty braces, whose `}` was seen at q behind the blanks, and their two records.
pub fn empty_braces(
    t: &mut [u32],
    s: &[u8],
    at: usize,
    q: usize,
    slot: Slot,
) -> Result<(usize, usize), Refusal>
    requires { Room 3 s.now at (seat slot) × Past q s.now pass at 1 × (byte_at s.now q ≡ 125) }
    ensures { Made (counted_in result) s.now empty_braces at 2 (seat slot) 0 t.old t.new }
{
    table::put_node_at(
        t,
        ROW_WORDS,
        slot.inside(),
        Node {
            kind: Kind::EmptyExpression,
            start: at + 1,
            end: q,
            extra: 0,
            below: 0,
        },
    );
    put_plain(t, Kind::Container, at, q + 1, 1, slot);
    Ok((q + 1, 2))
}

// The closing tag at c of an element that has v records below it so far, and then the element's own record.
pub fn shut(
    t: &mut [u32],
    s: &[u8],
    name: Opened,
    c: usize,
    v: usize,
    slot: Slot,
) -> Result<(usize, usize), Refusal>
    requires { Opening s.now name × Room 3 s.now c (seat_behind v (seat_inside (seat slot)))
        × ((seat slot).parent < 2 ^ 32) × (name.at ≤ c) }
    ensures { Shut (counted_in result) (closing_named s.now name c) s.now kinds.element 1 name.at c v (seat slot)
        t.old t.new }
{
    let i = table::start(t.len(), ROW_WORDS * (v + 1));
    let (z, k) = closing::close(&mut t[i..], s, name, c, slot.inside().behind(v))?;
    table::put_node(
        t,
        slot,
        Node {
            kind: Kind::Element,
            start: name.at,
            end: z,
            extra: 1,
            below: v + k,
        },
    );
    Ok((z, v + k + 1))
}

// The closing tag at c of a fragment that has v records below it so far and whose opening tag is from `at` to e, and
// then the fragment's own record.
pub fn shut_fragment(
    t: &mut [u32],
    s: &[u8],
    at: usize,
    e: usize,
    c: usize,
    v: usize,
    slot: Slot,
) -> Result<(usize, usize), Refusal>
    requires { (at ≤ e) × (at ≤ c) × Room 3 s.now c (seat_behind v (seat_inside (seat slot)))
        × ((seat slot).parent < 2 ^ 32) }
    ensures { Shut (counted_in result) (closing s.now at (e - at) no_name c) s.now kinds.fragment 0 at c v (seat slot)
        t.old t.new }
{
    let i = table::start(t.len(), ROW_WORDS * (v + 1));
    let (z, k) = closing::close_fragment(&mut t[i..], s, at, e, c, slot.inside().behind(v))?;
    put_plain(t, Kind::Fragment, at, z, v + k, slot);
    Ok((z, v + k + 1))
}
