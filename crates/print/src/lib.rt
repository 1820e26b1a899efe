// What the program prints of an answer, and its whole output, made in a buffer that the caller lends. Chapter 'The table'.
#![tactic(auto)]

ghost use Rattle.std.specs.Prelude.{◌≤◌, ◌<◌, ◌^◌, length};
ghost use Rattle.jsx.specs.Program.{printed, output};
ghost use Rattle.stage.specs.Call.{outcome, replied};
ghost use Rattle.put.specs.Puts.{Puts};
ghost use Rattle.print.specs.Answer.{Whole, text_room, most, Small};

use lex::refusal::{Reason, Refusal};
use put::{OK_BYTES, ROW_BYTES, Text};
use table::ROW_WORDS;

// The most bytes of the program's input, the words of its table, and the most bytes of its output.
pub const PROGRAM_BYTES: usize = 65_536;

const PROGRAM_RECORDS: usize = 2_048;

const PROGRAM_WORDS: usize = ROW_WORDS * PROGRAM_RECORDS;

pub const PROGRAM_TEXT: usize = OK_BYTES + ROW_BYTES * PROGRAM_RECORDS;

// A whole answer: a refusal's line, or the count and the rows.
pub fn put_answer(text: &mut Text, r: Result<usize, Refusal>, t: &[u32])
    requires { Small (replied r) × (text.old.end < 2 ^ 60) }
    ensures { Puts (most (replied r)) (printed (outcome (replied r) t.now)) text.old text.new }
{
    match r {
        Ok(records) => {
            text.ok(records);
            text.rows(t, records, 0);
        }
        Err(refusal) => text.no(refusal),
    }
}

// The program's whole output for an input.
fn put_output(text: &mut Text, s: &[u8])
    requires { text.old.end < 2 ^ 60 }
    ensures { Puts (text_room 2_048) (output s.now) text.old text.new }
{
    if PROGRAM_BYTES < s.len() {
        text.no(Reason::TooLong.at(0));
        return;
    }
    let mut t = [0; PROGRAM_WORDS];
    let r = stage::read_stage(s, &mut t);
    put_answer(text, r, &t);
}

// The same at the front of a buffer.
pub fn program_text(s: &[u8], out: &mut [u8]) -> usize
    requires { text_room 2_048 ≤ length out.old }
    ensures { Whole result (output s.now) out.new }
{
    let mut text = Text::new(out);
    put_output(&mut text, s);
    text.end
}
