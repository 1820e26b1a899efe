// What an item of a batch says, in front of its bytes.

ghost use Rattle.std.specs.Prelude.{◌≡◌};
ghost use Rattle.stage.specs.Call.{Reads, replied};
ghost use Rattle.many.specs.Item.{IsReadingOf, NamedBy, length_of, letter_of, reading as reading_by};

use lex::refusal::Refusal;
use room::STDIN;
use stage::Reading;

// The bytes in front of an item: its letter and its length.
const HEAD_BYTES: usize = 5;

// An item that is none: a wrong letter, or the input ends inside it.
#[derive(Clone, Copy)]
pub(crate) struct BadItem;

// What an item is read as, by its letter.
#[tactic(auto, unfolding(crate::specs::Item::reading))]
fn reading_of(letter: u8) -> Result<Reading, BadItem>
    ensures is { IsReadingOf letter result }
    ensures named { NamedBy letter result }
{
    match letter {
        b's' => Ok(Reading::Stage),
        b'r' => Ok(Reading::Run),
        _ => Err(BadItem),
    }
}

// An item's letter, the reading that it names, and how many bytes it has.
#[derive(Clone, Copy)]
pub struct Head {
    pub letter: u8,
    pub reading: Reading,
    pub length: usize,
    ghost named: { letter ≡ letter_of reading },
}

impl Head {
    // The read of the item's bytes, by its letter.
    pub(crate) fn read(self, s: &[u8], t: &mut [u32]) -> Result<usize, Refusal>
        ensures { Reads (reading_by self.letter) s.now t.old (replied result) t.new }
    {
        stage::read(self.reading, s, t)
    }
}

// The length that an item says.
fn item_length(head: &[u8; HEAD_BYTES]) -> usize
    ensures { result ≡ length_of head.now }
{
    u32::from_le_bytes([head[1], head[2], head[3], head[4]]) as usize
}

// The head of the next item, or none at the end of the input.
pub(crate) fn read_head() -> Result<Option<Head>, BadItem> {
    let mut head = [0; HEAD_BYTES];
    match io::read_full(STDIN, &mut head) {
        0 => Ok(None),
        HEAD_BYTES => Ok(Some(Head {
            letter: head[0],
            reading: reading_of(head[0])?,
            length: item_length(&head),
        })),
        _ => Err(BadItem),
    }
}
