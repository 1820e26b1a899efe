// Answers many stages and runs from one standard input, for night runs: `many` says what an item is, and its answer.
// The input here is the oracle's corpus.
#![tactic(auto)]

use many::TEXT;

fn main() {
    let mut item = room::input_room();
    let mut t = room::table_room();
    let mut out = [0u8; TEXT];
    many::answer_all(&mut item, &mut t, &mut out);
}
