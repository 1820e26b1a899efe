// The bytes of a record and of a span: the part of the caller's input itself. Chapter 'The table'.
#![tactic(auto)]

ghost use Rattle.jsx.specs.Table.{span_part, record_part};
ghost use Rattle.part.specs.Contract.{Answered, Within, Placed, part_of};

use table::{END, ROW_WORDS, START};

// What was asked for, and whether it was found: what was not found is the empty part at the input's start, so no `Option`.
#[derive(Clone, Copy)]
pub struct Part<'a> {
    pub bytes: &'a [u8],
    pub found: bool,
}

// The start and end of a span, where it is in range.
pub fn span(s: &[u8], start: usize, end: usize) -> Option<(usize, usize)>
    ensures { Placed s.now (span_part s.now start end) result }
{
    if end < start {
        return None;
    }
    if s.len() < end {
        return None;
    }
    Some((start, end))
}

// The start and end of a record, by its number, of a table that is lent with its count, where there is such a record and
// its span is in range.
pub fn record(s: &[u8], t: &[u32], count: usize, number: usize) -> Option<(usize, usize)>
    ensures { Placed s.now (record_part s.now t.now count number) result }
{
    if count <= number {
        return None;
    }
    if t.len() / ROW_WORDS <= number {
        return None;
    }
    let start = table::table_word(t, ROW_WORDS * number + START) as usize;
    let end = table::table_word(t, ROW_WORDS * number + END) as usize;
    span(s, start, end)
}

// The bytes from a start to an end, as the part of the input itself.
fn bytes_at<'a>(s: &'a [u8], place: Option<(usize, usize)>) -> Part<'a>
    requires { Within s.now place }
    ensures { Answered s.entry (part_of place) result.bytes result.found }
{
    match place {
        Some((start, end)) => Part {
            bytes: &s[start..end],
            found: true,
        },
        None => Part {
            bytes: &s[0..0],
            found: false,
        },
    }
}

// The bytes from start to end, as the part of the input itself, and whether that is in range.
pub fn span_bytes<'a>(s: &'a [u8], start: usize, end: usize) -> Part<'a>
    ensures { Answered s.entry (span_part s.now start end) result.bytes result.found }
{
    bytes_at(s, span(s, start, end))
}

// The bytes of a record, by its number, of a table that is lent with its count; and whether there is such a record and
// its span is in range.
pub fn record_bytes<'a>(s: &'a [u8], t: &[u32], count: usize, number: usize) -> Part<'a>
    ensures { Answered s.entry (record_part s.now t.now count number) result.bytes result.found }
{
    bytes_at(s, record(s, t, count, number))
}
