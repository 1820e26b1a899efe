// A text in lent bytes: bytes and numbers. These are methods, and no `write!`: `fmt::Write` says what was written only where
// it is `Ok`, and each of these puts its bytes always (`Puts`).

ghost use Rattle.std.specs.Prelude.{◌≡◌, [], ◌∷◌, ◌+◌, ◌≤◌, ◌<◌, ◌^◌, length, take};
ghost use Rattle.jsx.specs.Program.{decimal, field};
ghost use Rattle.put.specs.Puts.{Puts};

// The most digits of a number.
pub(crate) const DIGITS: usize = 20;

// A text in bytes that a caller lends, and where it ends. What does not fit is left out, and counted all the same.
#[derive(Drop)]
pub struct Text<'a> {
    pub bytes: &'a mut [u8],
    pub end: usize,
}

impl<'a> Text<'a> {
    // No text yet, at the front of the bytes.
    pub fn new(bytes: &'a mut [u8]) -> Text<'a>
        ensures lent { result.bytes.ghost_name ≡ bytes.entry.ghost_name }
        ensures same { result.bytes.now ≡ bytes.old }
        ensures front { result.end ≡ 0 }
    {
        Text { bytes, end: 0 }
    }

    // The text, where all of it fitted.
    pub fn written(&self) -> &[u8]
        requires { self.now.end ≤ length self.now.bytes.now }
        ensures { result.now ≡ take self.now.end self.now.bytes.now }
    {
        &self.bytes[..self.end]
    }

    pub fn byte(&mut self, b: u8)
        requires { self.old.end + 1 < 2 ^ 63 }
        ensures { Puts 1 (b ∷ []) self.old self.new }
    {
        if self.end < self.bytes.len() {
            self.bytes[self.end] = b;
        }
        self.end += 1;
    }

    // Bytes as they are.
    pub fn literal(&mut self, bytes: &[u8])
        requires { self.old.end + length bytes.now < 2 ^ 63 }
        ensures { Puts (length bytes.now) bytes.now self.old self.new }
    {
        for b in bytes {
            self.byte(*b);
        }
    }

    // A number in decimal.
    pub fn decimal(&mut self, n: usize)
        requires { self.old.end + 20 < 2 ^ 63 }
        ensures { Puts 20 (decimal n) self.old self.new }
    {
        let mut digits = [0; DIGITS];
        let k = io::decimal(n as u64, &mut digits);
        self.literal(&digits[..k]);
    }

    // A blank and a number.
    pub(crate) fn field(&mut self, n: usize)
        requires { self.old.end + 21 < 2 ^ 63 }
        ensures { Puts 21 (field n) self.old self.new }
    {
        self.byte(b' ');
        self.decimal(n);
    }
}
