// The records of a table as a tree.

ghost use Rattle.std.specs.Prelude.{◌≡◌, length};

use lex::kind::Kind;
use line::Line;
use std::fmt::Write;
use table::{AFTER, DEPTH, END, EXTRA, KIND, ROW_WORDS, START};

// The bytes of a record that are shown at most.
const SAMPLE: usize = 40;

// The first records of a table.
pub(crate) fn print(s: &[u8], t: &[u32], records: usize) {
    let mut line = Line::new();
    for (k, row) in t.chunks_exact(ROW_WORDS).take(records).enumerate() {
        print_record(&mut line, s, row, k + 1);
    }
}

// A record's kind, its start and end, and its bytes where it holds no record, so that the next one stands behind it; as far
// in as it is deep. (The line is lent: one made for each record took 1.3 of the time.)
fn print_record(line: &mut Line, s: &[u8], row: &[u32], next: usize)
    requires { length row.now ≡ 7 }
{
    let Ok(kind) = Kind::try_from(row[KIND]) else {
        return;
    };
    let start = row[START] as usize;
    let end = row[END] as usize;
    line.many(b' ', 2 * row[DEPTH] as usize);
    let _ = write!(
        line,
        "{kind} {start}..{end}{}",
        extra_words(kind, row[EXTRA])
    );
    if row[AFTER] as usize == next && start < end {
        let to = line::window_end(s, start, end, SAMPLE);
        line.literal(b": ");
        line.sample(s.get(start..to).unwrap_or(b""));
        if to < end {
            line.literal(b"..");
        }
    }
    line.print();
}

// What the extra word says: an element is paired, or a name has a dash.
fn extra_words(kind: Kind, extra: u32) -> &'static str {
    match (kind, extra) {
        (_, 0) => "",
        (Kind::Element, _) => ", paired",
        _ => ", with a dash",
    }
}
