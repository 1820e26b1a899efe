// Refusals and tables in words, for people: a refusal with its line, its column and the source under it; an accepted
// stage as a tree of its records. Where a place stands is proved (`spot`); the words are told by examples (`explained`).
#![tactic(auto)]

mod refusal;
mod tree;

// A stage in words: what refuses it, or the tree of its records.
pub fn tell(s: &[u8], t: &mut [u32]) {
    match stage::read_stage(s, t) {
        Ok(records) => tree::print(s, t, records),
        Err(refusal) => refusal::print(s, refusal),
    }
}
