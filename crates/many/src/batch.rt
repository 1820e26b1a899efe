// Room for a batch: an item's bytes, its table, and the text of its answer.

ghost use Rattle.std.specs.Prelude.{◌*◌, ◌≤◌, ◌<◌, ◌^◌, length};
ghost use Rattle.rules.specs.Record.{row_words};
ghost use Rattle.stage.specs.Call.{replied};
ghost use Rattle.print.specs.Answer.{text_room, most, Small};

use crate::item::{self, BadItem, Head};
use lex::refusal::{Reason, Refusal};
use put::{OK_BYTES, ROW_BYTES, Text};
use room::{STDIN, STDOUT};

// As many rows are printed at a time, and have room in so many bytes.
const ROWS: usize = 1_024;

pub const TEXT: usize = OK_BYTES + ROW_BYTES * ROWS;

#[derive(Drop)]
pub(crate) struct Batch<'a> {
    pub(crate) item: &'a mut [u8],
    pub(crate) table: &'a mut [u32],
    pub(crate) text: &'a mut [u8],
    ghost some: { 1 ≤ length item.now },
    ghost records: { length table.now ≤ row_words * 131_072 },
    ghost room: { text_room 1_024 ≤ length text.now },
}

impl Batch<'_> {
    // Answers the next item, and says whether there is one.
    pub(crate) fn answer_next(&mut self) -> Result<bool, BadItem> {
        let Some(head) = item::read_head()? else {
            return Ok(false);
        };
        self.take_bytes(head.length)?;
        self.answer(head);
        Ok(true)
    }

    // Takes the next n bytes of the input. Those of an item that is not too long are at the front of `item` then.
    fn take_bytes(&mut self, n: usize) -> Result<(), BadItem> {
        let mut left = n;
        while self.item.len() < left {
            if io::read_full(STDIN, self.item) < self.item.len() {
                return Err(BadItem);
            }
            left -= self.item.len();
        }
        if io::read_full(STDIN, &mut self.item[..left]) < left {
            return Err(BadItem);
        }
        Ok(())
    }

    // Answers an item whose bytes are at the front of `item`, unless it is too long.
    fn answer(&mut self, head: Head) {
        if self.item.len() < head.length {
            self.write(Err(Reason::TooLong.at(0)));
            return;
        }
        let r = head.read(&self.item[..head.length], self.table);
        self.write(r);
    }

    // Writes an answer: one of many rows by parts.
    #[tactic(auto, unfolding(lex::specs::Answer::refused))]
    fn write(&mut self, r: Result<usize, Refusal>)
        requires { Small (replied r) }
    {
        match r {
            Ok(m) if ROWS < m => self.write_long(m),
            _ => self.write_short(r),
        }
    }

    // Writes an answer whose text has room.
    fn write_short(&mut self, r: Result<usize, Refusal>)
        requires { (most (replied r) ≤ text_room 1_024) × Small (replied r) }
    {
        let mut text = Text::new(self.text);
        print::put_answer(&mut text, r, self.table);
        io::write_all(STDOUT, text.written());
    }

    // Writes an answer of so many rows that they go out by parts.
    fn write_long(&mut self, m: usize)
        requires { m < 2 ^ 32 }
    {
        let mut text = Text::new(self.text);
        text.ok(m);
        io::write_all(STDOUT, text.written());
        self.write_rows(m);
    }

    // Writes the lines of m records, some at a time.
    fn write_rows(&mut self, m: usize)
        requires { m < 2 ^ 32 }
    {
        for k in (0..m).step_by(ROWS) {
            let mut text = Text::new(self.text);
            text.rows(self.table, ROWS.min(m - k), k);
            io::write_all(STDOUT, text.written());
        }
    }

    // The line of a bad item.
    pub(crate) fn write_bad(&mut self, k: usize) {
        let mut text = Text::new(self.text);
        text.literal(b"bad item ");
        text.decimal(k);
        text.byte(b'\n');
        io::write_all(STDOUT, text.written());
    }
}
