// Answers many stages and runs from one standard input, for the programs `batch` and `borders`, which lend it room. An
// item is one byte, `s` for a stage or `r` for a run, its length in 4 bytes, low byte first, and its bytes. Each answer
// has the form that `lorikvar` prints. An item of more than 1,048,576 bytes is `no 1 0 0 0 0`, and its bytes are passed
// over; a table has 131,072 records. A wrong first byte, or an input that ends inside an item, is `bad item K`, counted
// from 0, and ends the batch.
#![tactic(auto)]

ghost use Rattle.std.specs.Prelude.{◌*◌, ◌≤◌, length};
ghost use Rattle.rules.specs.Record.{row_words};
ghost use Rattle.print.specs.Answer.{text_room};

use batch::Batch;
pub use batch::TEXT;
use item::BadItem;
pub use item::Head;

mod batch;
mod item;

// No input has so many items.
const ITEMS: usize = 4_611_686_018_427_387_904;

// Item after item, up to the end of the input or a bad one.
pub fn answer_all(item: &mut [u8], t: &mut [u32], out: &mut [u8])
    requires { (1 ≤ length item.old) × (text_room 1_024 ≤ length out.old) ×
        (length t.old ≤ row_words * 131_072) }
{
    let mut batch = Batch {
        item,
        table: t,
        text: out,
    };
    for k in 0..ITEMS {
        match batch.answer_next() {
            Ok(true) => {}
            Ok(false) => return,
            Err(BadItem) => {
                batch.write_bad(k);
                return;
            }
        }
    }
}
