// The same program as `batch`, run on another list, the borders of the ranges of name characters: `many` says what an
// item is, and its answer.
#![tactic(auto)]

use many::TEXT;

fn main() {
    let mut item = room::input_room();
    let mut t = room::table_room();
    let mut out = [0u8; TEXT];
    many::answer_all(&mut item, &mut t, &mut out);
}
