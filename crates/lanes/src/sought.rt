// Which bytes a scan looks for, one by one and in the lanes of a word.

ghost use Rattle.std.specs.Prelude.{◌≡◌};
ghost use Rattle.rules.specs.Rule.{Test};
ghost use Rattle.lanes.specs.Lanes.{Marked, beyond, only, any_of};

use crate::words::{ALL, beyond_ascii, clear_equal};

// Bytes that are looked for.
pub trait Sought: Copy {
    // Whether a byte is one of them.
    ghost test: { Self → Test };

    // Whether a scan looks at two words a turn, which was measured to pay where most scans are long.
    const PAIRS: bool;

    fn has(self, b: u8) -> bool
        ensures { result ≡ test self b };

    // The lanes of a word whose byte is one of them.
    fn marks(self, w: u64) -> u64
        ensures { Marked (test self) w result };
}

// A byte beyond ASCII.
#[derive(Clone, Copy)]
pub struct Beyond;

impl Sought for Beyond {
    ghost test = { λ it. beyond };

    const PAIRS: bool = true;

    fn has(self, b: u8) -> bool {
        b >= 0x80
    }

    fn marks(self, w: u64) -> u64 {
        beyond_ascii(w)
    }
}

// This byte.
#[derive(Clone, Copy)]
pub struct Only(pub u8);

impl Sought for Only {
    ghost test = { λ it. only it.0 };

    const PAIRS: bool = false;

    fn has(self, b: u8) -> bool {
        self.0 == b
    }

    fn marks(self, w: u64) -> u64 {
        clear_equal(w, self.0) ^ ALL
    }
}

// One of these four bytes.
#[derive(Clone, Copy)]
pub struct AnyOf(pub u8, pub u8, pub u8, pub u8);

impl Sought for AnyOf {
    ghost test = { λ it. any_of it.0 it.1 it.2 it.3 };

    const PAIRS: bool = true;

    fn has(self, b: u8) -> bool {
        b == self.0 || b == self.1 || b == self.2 || b == self.3
    }

    fn marks(self, w: u64) -> u64 {
        let AnyOf(a, b, c, d) = self;
        Only(a).marks(w) | Only(b).marks(w) | Only(c).marks(w) | Only(d).marks(w)
    }
}
