// The calls for C and Rust, over `stage`. A slice is a pointer and a length; a reply is its number, 0 where the input is
// accepted, with its values in four words that the caller lends. No call asks anything of its caller but that what it
// lends is there.
#![tactic(auto)]

ghost use Rattle.jsx.specs.Reading.{stage as stage_rule, run as run_rule};
ghost use Rattle.jsx.specs.Table.{span_part, record_part};
ghost use Rattle.part.specs.Contract.{part_of};
ghost use Rattle.stage.specs.Call.{replied};
ghost use Rattle.abi.specs.Said.{Says, SaysOfCheck, SaysOfRead, SaysPart};

use lex::refusal::Refusal;

// A reply's number, with its values stored.
fn say(r: Result<usize, Refusal>, values: &mut [usize; 4]) -> u32
    ensures { Says (replied r) result values.new }
{
    match r {
        Ok(m) => {
            *values = [m, 0, 0, 0];
            0
        }
        Err(e) => {
            *values = [e.first.start, e.first.end, e.second.start, e.second.end];
            e.reason.number()
        }
    }
}

// The check of a stage.
#[unsafe(no_mangle)]
pub extern "C" fn lorikvar_check_stage(s: &[u8], values: &mut [usize; 4]) -> u32
    ensures { SaysOfCheck stage_rule s.now result values.new }
{
    say(stage::check_stage(s), values)
}

// The check of a run.
#[unsafe(no_mangle)]
pub extern "C" fn lorikvar_check_run(s: &[u8], values: &mut [usize; 4]) -> u32
    ensures { SaysOfCheck run_rule s.now result values.new }
{
    say(stage::check_run(s), values)
}

// The read of a stage.
#[unsafe(no_mangle)]
pub extern "C" fn lorikvar_read_stage(s: &[u8], t: &mut [u32], values: &mut [usize; 4]) -> u32
    ensures { SaysOfRead stage_rule s.now t.old t.new result values.new }
{
    say(stage::read_stage(s, t), values)
}

// The read of a run.
#[unsafe(no_mangle)]
pub extern "C" fn lorikvar_read_run(s: &[u8], t: &mut [u32], values: &mut [usize; 4]) -> u32
    ensures { SaysOfRead run_rule s.now t.old t.new result values.new }
{
    say(stage::read_run(s, t), values)
}

// Whether there is such a part, with its start and end stored: 0 and 0 where there is none.
fn say_part(place: Option<(usize, usize)>, part: &mut [usize; 2]) -> bool
    ensures { SaysPart (part_of place) result part.new }
{
    match place {
        Some((start, end)) => {
            *part = [start, end];
            true
        }
        None => {
            *part = [0, 0];
            false
        }
    }
}

// The bytes from start to end, where that is in range.
#[unsafe(no_mangle)]
pub extern "C" fn lorikvar_span_bytes(
    s: &[u8],
    start: usize,
    end: usize,
    part: &mut [usize; 2],
) -> bool
    ensures { SaysPart (span_part s.now start end) result part.new }
{
    say_part(part::span(s, start, end), part)
}

// The bytes of a record, by its number, of a table that is lent with its count, where there is such a record and its span
// is in range.
#[unsafe(no_mangle)]
pub extern "C" fn lorikvar_record_bytes(
    s: &[u8],
    t: &[u32],
    count: usize,
    number: usize,
    part: &mut [usize; 2],
) -> bool
    ensures { SaysPart (record_part s.now t.now count number) result part.new }
{
    say_part(part::record(s, t, count, number), part)
}
