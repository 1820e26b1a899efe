// What the programs print, piece by piece, put into bytes that the caller lends: numbers, fields, rows, first lines.
// Chapter 'The table'.
#![tactic(auto)]

pub use first::OK_BYTES;
pub use row::ROW_BYTES;
pub use text::Text;

mod first;
mod row;
mod text;
