// Reads a stage from standard input and prints its records, or its refusal (document 01, 'The table'). What it prints
// for the bytes that it has read is `print::program_text`; no contract can say which bytes are read and written.
#![tactic(auto)]

use print::PROGRAM_TEXT;
use room::{STDIN, STDOUT};

fn main() {
    let mut input = [0u8; 65_537]; // one byte more than is allowed, so that a longer input is told
    let n = io::read_full(STDIN, &mut input);
    let mut out = [0u8; PROGRAM_TEXT];
    let e = print::program_text(&input[..n], &mut out);
    io::write_all(STDOUT, &out[..e]);
}
