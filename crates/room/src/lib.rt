// What the programs lend: room for an input of any allowed length, a table, and the streams that they read and write.
#![tactic(auto)]

ghost use Rattle.std.specs.Prelude.{◌≡◌, ◌*◌, length};
ghost use Rattle.rules.specs.Record.{row_words};

use table::ROW_WORDS;

// Standard input and output, as the system numbers them.
pub const STDIN: i32 = 0;

pub const STDOUT: i32 = 1;

// 131,072 records.
const TABLE_WORDS: usize = ROW_WORDS * 131_072;

// An input of one byte more than is allowed, so that a longer one is told.
pub fn input_room() -> [u8; 1_048_577]
    ensures { 1_048_577 ≡ length result }
{
    [0; 1_048_577]
}

// A table of so many words.
pub fn table_room() -> [u32; TABLE_WORDS]
    ensures { row_words * 131_072 ≡ length result }
{
    [0; TABLE_WORDS]
}
