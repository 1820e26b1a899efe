// A line that owns its bytes.

ghost use Rattle.std.specs.Prelude.{◌≡◌, ℕ, List, [], ◌∷◌, ◌≤◌, take, replicate};
ghost use Rattle.line.specs.Fit.{with_fitting};

use room::STDOUT;
use std::fmt;
use std::marker::Model;

// What a line has room for.
const ROOM: usize = 4_096;

// What has been put into a line; what does not fit is left out.
#[derive(Drop)]
pub struct Line {
    bytes: [u8; ROOM],
    end: usize,
}

impl Model for Line {
    ghost Value = { List ℕ };

    ghost view = { λ l. take l.end l.bytes };

    ghost invariant = { λ l. l.end ≤ 4_096 };
}

impl Line {
    pub fn new() -> Line
        ensures { result ≡ [] }
    {
        Line {
            bytes: [0; ROOM],
            end: 0,
        }
    }

    pub fn byte(&mut self, b: u8)
        ensures { self.new ≡ with_fitting self.old (b ∷ []) }
    {
        if self.end < ROOM {
            self.bytes[self.end] = b;
            self.end += 1;
        }
    }

    // The same byte n times.
    pub fn many(&mut self, b: u8, n: usize)
        ensures { self.new ≡ with_fitting self.old (replicate n b) }
    {
        for _i in 0..n {
            self.byte(b);
        }
    }

    // Bytes as they are.
    pub fn literal(&mut self, bytes: &[u8])
        ensures { self.new ≡ with_fitting self.old bytes.now }
    {
        for b in bytes {
            self.byte(*b);
        }
    }

    // Writes the line and its end to standard output, and begins the next line in its place.
    pub fn print(&mut self)
        ensures { self.new ≡ [] }
    {
        self.byte(b'\n');
        io::write_all(STDOUT, &self.bytes[..self.end]);
        self.end = 0;
    }
}

// Text always goes in, as far as it fits: `write!` to a line is `Ok`.
impl fmt::Write for Line {
    ghost write_str_gives = { λ old text new. new ≡ with_fitting old text };

    fn write_str(&mut self, text: &str) -> fmt::Result {
        self.literal(text.as_bytes());
        Ok(())
    }
}
