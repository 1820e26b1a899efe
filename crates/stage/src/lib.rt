// The public calls: check and read of a stage and of a run, and the bytes of a record and of a span. Chapters 'The two
// readings', 'Refusal numbers' and 'The table'. No call asks anything of its caller.
#![tactic(auto)]

ghost use Rattle.std.specs.Prelude.{◌≡◌, ◌≤◌, length};
ghost use Rattle.jsx.specs.Reading.{stage, run};
ghost use Rattle.jsx.specs.Table.{span_part, record_part};
ghost use Rattle.table.specs.Slot.{seat};
ghost use Rattle.part.specs.Contract.{Answered};
ghost use Rattle.table.specs.Reader.{Made};
ghost use Rattle.lex.specs.Answer.{counted_in, said};
ghost use Rattle.stage.specs.Call.{rule_of, replied, whole as whole_seat, Sound, Checks, Reads};

use lex::bytes::{END, LESS};
use lex::refusal::{Reason, Refusal};
use part::Part;
use table::{MISSING, ROW_WORDS, Slot};

// The most bytes of an input.
pub const MOST_BYTES: usize = 1_048_576;

// The most levels of depth.
const DEPTH: usize = 64;

// The two readings of document 01.
#[derive(Clone, Copy, PartialEq, Eq)]
pub enum Reading {
    Stage,
    Run,
}

// The first two tests: the length, then UTF-8.
fn sound(s: &[u8]) -> Result<usize, Refusal>
    ensures { Sound (said result) s.now }
{
    if MOST_BYTES < s.len() {
        return Err(Reason::TooLong.at(0));
    }
    utf8::utf8(s)
}

// The front of the table, in no record.
fn whole() -> Slot
    ensures { seat result ≡ whole_seat }
{
    Slot {
        here: 0,
        parent: MISSING,
    }
}

// The reading of a stage, with its rows at the front of the table.
fn stage_into(s: &[u8], t: &mut [u32]) -> Result<(usize, usize), Refusal>
    requires { length s.now ≤ 1_048_576 }
    ensures { Made (counted_in result) s.now (stage 64) 0 0 whole_seat 0 t.old t.new }
{
    let p = blank::skip_blanks(s, 0)?;
    if lex::byte(s, p) != LESS {
        return Err(lex::unexpected(s, p));
    }
    let (e, m) = reader::parse_jsx_element(t, s, p, Reason::AfterStage, DEPTH, whole())?;
    let z = blank::skip_blanks(s, e)?;
    if lex::byte(s, z) == END {
        return Ok((z, m));
    }
    Err(Reason::AfterStage.at(z))
}

// The reading of a run, with its rows at the front of the table.
fn run_into(s: &[u8], t: &mut [u32]) -> Result<(usize, usize), Refusal>
    requires { length s.now ≤ 1_048_576 }
    ensures { Made (counted_in result) s.now (run 64) 0 0 whole_seat 0 t.old t.new }
{
    let (p, m) = reader::parse_jsx_children(t, s, 0, DEPTH, whole())?;
    if lex::byte(s, p) == END {
        return Ok((p, m));
    }
    Err(Reason::Unexpected.at(p))
}

// A reading of an input of good length, with its rows at the front of the table.
fn read_into(reading: Reading, s: &[u8], t: &mut [u32]) -> Result<(usize, usize), Refusal>
    requires { length s.now ≤ 1_048_576 }
    ensures { Made (counted_in result) s.now (rule_of reading 64) 0 0 whole_seat 0 t.old t.new }
{
    match reading {
        Reading::Stage => stage_into(s, t),
        Reading::Run => run_into(s, t),
    }
}

// A check counts the records.
pub fn check(reading: Reading, s: &[u8]) -> Result<usize, Refusal>
    ensures { Checks (rule_of reading) s.now (replied result) }
{
    sound(s)?;
    let mut none = [0u32; 0];
    let (_, m) = read_into(reading, s, &mut none)?;
    Ok(m)
}

// A read writes the records; it checks first, so that a refusal writes no word.
pub fn read(reading: Reading, s: &[u8], t: &mut [u32]) -> Result<usize, Refusal>
    ensures { Reads (rule_of reading) s.now t.old (replied result) t.new }
{
    let m = check(reading, s)?;
    if t.len() / ROW_WORDS < m {
        return Err(Reason::TableTooSmall.over(m, 0));
    }
    let (_, k) = read_into(reading, s, t)?;
    Ok(k)
}

// The check of a stage.
pub fn check_stage(s: &[u8]) -> Result<usize, Refusal>
    ensures { Checks stage s.now (replied result) }
{
    check(Reading::Stage, s)
}

// The check of a run.
pub fn check_run(s: &[u8]) -> Result<usize, Refusal>
    ensures { Checks run s.now (replied result) }
{
    check(Reading::Run, s)
}

// The read of a stage.
pub fn read_stage(s: &[u8], t: &mut [u32]) -> Result<usize, Refusal>
    ensures { Reads stage s.now t.old (replied result) t.new }
{
    read(Reading::Stage, s, t)
}

// The read of a run.
pub fn read_run(s: &[u8], t: &mut [u32]) -> Result<usize, Refusal>
    ensures { Reads run s.now t.old (replied result) t.new }
{
    read(Reading::Run, s, t)
}

// The bytes from start to end, as the part of the input itself, and whether that is in range.
pub fn span_bytes<'a>(s: &'a [u8], start: usize, end: usize) -> Part<'a>
    ensures { Answered s.entry (span_part s.now start end) result.bytes result.found }
{
    part::span_bytes(s, start, end)
}

// The bytes of a record, by its number, of a table that is lent with its count; and whether there is such a record and
// its span is in range.
pub fn record_bytes<'a>(s: &'a [u8], t: &[u32], count: usize, number: usize) -> Part<'a>
    ensures { Answered s.entry (record_part s.now t.now count number) result.bytes result.found }
{
    part::record_bytes(s, t, count, number)
}
