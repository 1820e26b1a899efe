// The record table: where a reader stands in it, and rows stored into a part that is lent.
// Chapter 'The table'.
#![tactic(auto)]

ghost use Rattle.std.specs.Prelude.{◌≡◌, [], ◌∷◌, ◌+◌, ◌≤◌, ◌<◌, ◌^◌, length, get_or};
ghost use Rattle.rules.specs.Record.{row_words};
ghost use Rattle.table.specs.Slot.{seat, seat_inside, seat_behind};
ghost use Rattle.table.specs.Contract.{Start, Enterable, Words, Put, Stored};

use lex::numbered::Numbered;

// The words of a row.
pub const ROW_WORDS: usize = 7;

// The parent of a record that has none.
pub const MISSING: usize = 4_294_967_295;

// The places of a row's words.
pub const KIND: usize = 0;

pub const START: usize = 1;

pub const END: usize = 2;

pub const PARENT: usize = 3;

pub const AFTER: usize = 4;

pub const EXTRA: usize = 5;

pub const DEPTH: usize = 6;

// One level deeper, in the word that a number and a depth share.
const LEVEL: usize = 4_294_967_296;

// Where a reader stands in the table: the number of its next record plus LEVEL for each record that it stands in; and the
// innermost of those. So two words travel through each call of a reader, and not three.
#[derive(Clone, Copy)]
pub struct Slot {
    pub here: usize,
    pub parent: usize,
}

impl Slot {
    // The number of the next record.
    fn number(self) -> usize
        ensures { result ≡ (seat self).number }
    {
        self.here % LEVEL
    }

    // How many records it stands in.
    fn depth(self) -> usize
        ensures { result ≡ (seat self).depth }
    {
        self.here / LEVEL
    }

    // Inside the record here.
    pub fn inside(self) -> Slot
        requires { Enterable (seat self) }
        ensures { seat result ≡ seat_inside (seat self) }
    {
        Slot {
            here: self.here + (LEVEL + 1),
            parent: self.here % LEVEL,
        }
    }

    // Behind m records.
    pub fn behind(self, m: usize) -> Slot
        requires { (seat self).number + m < 2 ^ 32 }
        ensures { seat result ≡ seat_behind m (seat self) }
    {
        Slot {
            here: self.here + m,
            parent: self.parent,
        }
    }
}

// What a node says of itself: its kind, or any number in its place, its span, its extra word, and how many records are
// below it.
#[derive(Clone, Copy)]
pub struct Node<K> {
    pub kind: K,
    pub start: usize,
    pub end: usize,
    pub extra: usize,
    pub below: usize,
}

// Where the part from the word k on starts in a table of l words: at k, or at the end.
pub fn start(l: usize, k: usize) -> usize
    ensures { Start l k result }
{
    k.min(l)
}

// A word, where it fits. (No `get_mut`: its contract says nothing of what the slice ends as, and `Put` does.)
pub fn put_word(t: &mut [u32], k: usize, w: usize)
    requires { w < 2 ^ 32 }
    ensures { Put k (w ∷ []) t.old t.new }
{
    if k < t.len() {
        t[k] = w as u32;
    }
}

// Three words from the word k on, each where it fits.
fn put_three(t: &mut [u32], k: usize, a: usize, b: usize, c: usize)
    requires { (k < 4) × (a < 2 ^ 32) × (b < 2 ^ 32) × (c < 2 ^ 32) }
    ensures { Put k (a ∷ b ∷ c ∷ []) t.old t.new }
{
    put_word(t, k, a);
    put_word(t, k + 1, b);
    put_word(t, k + 2, c);
}

// A node's row at the front of a part that has room for it.
fn put_whole<K: Numbered>(t: &mut [u32], slot: Slot, w: Node<K>)
    requires { Words (seat slot) (K.number_of w.kind) w.start w.end w.extra w.below × (row_words ≤ length t.old) }
    ensures { Stored 0 (seat slot) (K.number_of w.kind) w.start w.end w.extra w.below t.old t.new }
{
    let number = slot.number();
    let depth = slot.depth();
    t[KIND] = w.kind.as_number() as u32;
    t[START] = w.start as u32;
    t[END] = w.end as u32;
    t[PARENT] = slot.parent as u32;
    t[AFTER] = (number + (1 + w.below)) as u32;
    t[EXTRA] = w.extra as u32;
    t[DEPTH] = depth as u32;
}

// A node's row at the front of any part, each word where it fits.
fn put_cut<K: Numbered>(t: &mut [u32], slot: Slot, w: Node<K>)
    requires { Words (seat slot) (K.number_of w.kind) w.start w.end w.extra w.below }
    ensures { Stored 0 (seat slot) (K.number_of w.kind) w.start w.end w.extra w.below t.old t.new }
{
    put_three(t, KIND, w.kind.as_number(), w.start, w.end);
    put_three(
        t,
        PARENT,
        slot.parent,
        slot.number() + (1 + w.below),
        w.extra,
    );
    put_word(t, DEPTH, slot.depth());
}

// A node's row at the front of the part. A check lends no word of a table, a read room for the row: so there is one test, or
// two.
pub fn put_node<K: Numbered>(t: &mut [u32], slot: Slot, w: Node<K>)
    requires { Words (seat slot) (K.number_of w.kind) w.start w.end w.extra w.below }
    ensures { Stored 0 (seat slot) (K.number_of w.kind) w.start w.end w.extra w.below t.old t.new }
{
    if t.len() == 0 {
        return;
    }
    if ROW_WORDS <= t.len() {
        put_whole(t, slot, w);
        return;
    }
    put_cut(t, slot, w);
}

// A node's row at the word k: its writer is lent only the part from there on.
pub fn put_node_at<K: Numbered>(t: &mut [u32], k: usize, slot: Slot, w: Node<K>)
    requires { Words (seat slot) (K.number_of w.kind) w.start w.end w.extra w.below }
    ensures { Stored k (seat slot) (K.number_of w.kind) w.start w.end w.extra w.below t.old t.new }
{
    let i = start(t.len(), k);
    put_node(&mut t[i..], slot, w);
}

// The word at a place, 0 past the end.
pub fn table_word(t: &[u32], k: usize) -> u32
    ensures { result ≡ get_or t.now k 0 }
{
    t.get(k).copied().unwrap_or(0)
}
