// The source in a line, and what stands under it.

ghost use Rattle.std.specs.Prelude.{◌≡◌, ◌≤◌, map};
ghost use Rattle.line.specs.Fit.{with_fitting};
ghost use Rattle.line.specs.Shown.{visible as visible_byte, visible_ascii};

use crate::line::Line;

// A byte of a character as it is shown: `?` where it cannot be seen.
fn visible(b: u8) -> u8
    ensures { result ≡ visible_byte b }
{
    match b {
        b'\t' | b' '..=b'~' | 0x80..=0xff => b,
        _ => b'?',
    }
}

// The columns of a character on a screen, by its first byte; its further bytes have none. Chinese, Japanese and Korean
// (from U+3000 to U+DFFF) and pictures (from U+10000 on) have two.
fn columns(b: u8) -> usize
    ensures { result ≤ 2 }
{
    match b {
        0x80..=0xbf => 0,
        0xe3..=0xed | 0xf0..=0xff => 2,
        _ => 1,
    }
}

impl Line {
    // Bytes that are characters.
    pub fn source(&mut self, part: &[u8])
        ensures { self.new ≡ with_fitting self.old (map visible_byte part.now) }
    {
        for b in part {
            self.byte(visible(*b));
        }
    }

    // Bytes that may be no characters: of those, only ASCII is shown.
    pub fn broken_source(&mut self, part: &[u8])
        ensures { self.new ≡ with_fitting self.old (map visible_ascii part.now) }
    {
        for b in part {
            self.byte(if b.is_ascii() { visible(*b) } else { b'?' });
        }
    }

    // Characters within words: the ends of lines and tabs by their names.
    pub fn sample(&mut self, part: &[u8]) {
        for b in part {
            match *b {
                b'\n' => self.literal(b"\\n"),
                b'\r' => self.literal(b"\\r"),
                b'\t' => self.literal(b"\\t"),
                b => self.byte(visible(b)),
            }
        }
    }

    // What stands under the source in front of a mark: a tab under a tab, else blanks.
    pub fn blanks(&mut self, part: &[u8]) {
        for b in part {
            match *b {
                b'\t' => self.byte(b'\t'),
                b => self.many(b' ', columns(b)),
            }
        }
    }

    // The marks under a part of the source, at least one.
    pub fn marks(&mut self, part: &[u8]) {
        if part.is_empty() {
            self.byte(b'^');
        }
        for b in part {
            self.many(b'^', columns(*b));
        }
    }
}
