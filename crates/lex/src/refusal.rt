// Refusals: which one of documents 01 and 02 it is, and its places.

ghost use Rattle.std.specs.Prelude.{◌≡◌};
ghost use Rattle.lex.specs.Answer.{No, number, refused};

// The refusals of document 01 and, from `CommentNeverClosed` on, of document 02, by the names and with the numbers that
// the definition gives them.
#[derive(Clone, Copy, PartialEq, Eq)]
pub enum Reason {
    TooLong = 1,
    NotUtf8 = 2,
    Unexpected = 3,
    EndOfInput = 4,
    QuotedNeverClosed = 5,
    StrayInText = 6,
    NamesDiffer = 7,
    FragmentClosedByName = 8,
    ElementClosedByFragment = 9,
    DashAfterDot = 10,
    EmptyValue = 11,
    Adjacent = 12,
    AfterStage = 13,
    TooDeep = 14,
    TableTooSmall = 15,
    CommaInBraces = 16,
    CommentNeverClosed = 17,
    StringNeverClosed = 18,
}

// The places from `start` up to `end`.
#[derive(Clone, Copy, PartialEq, Eq)]
pub struct Span {
    pub start: usize,
    pub end: usize,
}

// Why an input is refused, and where: most refusals have one place, and zeros for the second.
#[derive(Clone, Copy, PartialEq, Eq)]
pub struct Refusal {
    pub reason: Reason,
    pub first: Span,
    pub second: Span,
}

impl Reason {
    pub fn number(self) -> u32
        ensures { result ≡ number self }
    {
        self as u32
    }

    // Refused at one place.
    pub fn at(self, p: usize) -> Refusal
        ensures { refused result ≡ No (number self) p p 0 0 }
    {
        self.over(p, p)
    }

    // Refused from `start` to `end`.
    pub fn over(self, start: usize, end: usize) -> Refusal
        ensures { refused result ≡ No (number self) start end 0 0 }
    {
        self.over_both(Span { start, end }, Span { start: 0, end: 0 })
    }

    // Refused for two places.
    #[tactic(auto, unfolding(crate::specs::Answer::refused))]
    pub fn over_both(self, first: Span, second: Span) -> Refusal
        ensures { refused result ≡ No (number self) first.start first.end second.start second.end }
    {
        Refusal {
            reason: self,
            first,
            second,
        }
    }
}
