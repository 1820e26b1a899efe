// Reads a stage from standard input and tells what refuses it, where, with the source under it; or prints the tree of its
// records. Up to 1,048,576 bytes and 131,072 records.
#![tactic(auto)]

use room::STDIN;

fn main() {
    let mut input = room::input_room();
    let mut t = room::table_room();
    let n = io::read_full(STDIN, &mut input);
    tell::tell(&input[..n], &mut t);
}
