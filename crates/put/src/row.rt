// The records of a table, a line for each.

ghost use Rattle.std.specs.Prelude.{◌+◌, ◌*◌, ◌<◌, ◌^◌, get_or};
ghost use Rattle.jsx.specs.Program.{parent_field, row_line, row_lines};
ghost use Rattle.put.specs.Text.{field_at, row_bytes};
ghost use Rattle.put.specs.Puts.{Puts};

use crate::text::{DIGITS, Text};
use table::{AFTER, DEPTH, END, EXTRA, KIND, MISSING, PARENT, ROW_WORDS, START};

// The most bytes of a record's line: its number, a field for each word, and the line's end.
pub const ROW_BYTES: usize = DIGITS + (DIGITS + 1) * ROW_WORDS + 1;

impl Text<'_> {
    // The field of a word of the table.
    fn word(&mut self, t: &[u32], k: usize)
        requires { self.old.end + 21 < 2 ^ 63 }
        ensures { Puts 21 (field_at t.now k) self.old self.new }
    {
        self.field(table::table_word(t, k) as usize);
    }

    // The field of a word that names a parent: a dash for the missing one.
    fn parent(&mut self, t: &[u32], k: usize)
        requires { self.old.end + 21 < 2 ^ 63 }
        ensures { Puts 21 (parent_field (get_or t.now k 0)) self.old self.new }
    {
        match table::table_word(t, k) as usize {
            MISSING => self.literal(b" -"),
            parent => self.field(parent),
        }
    }

    // The line of the record k.
    pub fn row(&mut self, t: &[u32], k: usize)
        requires { (self.old.end + row_bytes < 2 ^ 63) × (k < 2 ^ 32) }
        ensures { Puts row_bytes (row_line t.now k) self.old self.new }
    {
        let i = ROW_WORDS * k;
        self.decimal(k);
        self.word(t, i + KIND);
        self.word(t, i + START);
        self.word(t, i + END);
        self.parent(t, i + PARENT);
        self.word(t, i + AFTER);
        self.word(t, i + EXTRA);
        self.word(t, i + DEPTH);
        self.byte(b'\n');
    }

    // The lines of `count` records from k on.
    pub fn rows(&mut self, t: &[u32], count: usize, k: usize)
        requires { (self.old.end + row_bytes * count < 2 ^ 62) × (k + count < 2 ^ 32) }
        ensures { Puts (row_bytes * count) (row_lines t.now count k) self.old self.new }
    {
        for i in 0..count {
            self.row(t, k + i);
        }
    }
}
