// First lines: of an acceptance, of a refusal, of a settings store.

ghost use Rattle.std.specs.Prelude.{◌+◌, ◌<◌, ◌^◌};
ghost use Rattle.lex.specs.Answer.{number};
ghost use Rattle.put.specs.Text.{ok_line, no_line, set_line};
ghost use Rattle.put.specs.Puts.{Puts};

use crate::text::Text;
use lex::refusal::{Refusal, Span};

// The most bytes of an acceptance's first line.
pub const OK_BYTES: usize = 24;

impl Text<'_> {
    // The first line of an acceptance of so many records.
    pub fn ok(&mut self, records: usize)
        requires { self.old.end + 24 < 2 ^ 63 }
        ensures { Puts 24 (ok_line records) self.old self.new }
    {
        self.literal(b"ok");
        self.field(records);
        self.byte(b'\n');
    }

    // The line of a refusal, by its number, whatever it is, and its two places.
    pub fn refusal(&mut self, number: usize, first: Span, second: Span)
        requires { self.old.end + 108 < 2 ^ 63 }
        ensures { Puts 108 (no_line number first.start first.end second.start second.end) self.old self.new }
    {
        self.literal(b"no");
        self.field(number);
        self.field(first.start);
        self.field(first.end);
        self.field(second.start);
        self.field(second.end);
        self.byte(b'\n');
    }

    // The line of a refusal of document 01 or 02.
    pub fn no(&mut self, r: Refusal)
        requires { self.old.end + 108 < 2 ^ 63 }
        ensures { Puts 108 (no_line (number r.reason) r.first.start r.first.end r.second.start r.second.end)
            self.old self.new }
    {
        self.refusal(r.reason.number() as usize, r.first, r.second);
    }

    // The line of a settings store that sets a depth and a length.
    pub fn set(&mut self, depth: usize, bytes: usize)
        requires { self.old.end + 46 < 2 ^ 63 }
        ensures { Puts 46 (set_line depth bytes) self.old self.new }
    {
        self.literal(b"set");
        self.field(depth);
        self.field(bytes);
        self.byte(b'\n');
    }
}
