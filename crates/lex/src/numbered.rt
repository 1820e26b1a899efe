// What has a number of the documents: a kind, a refusal, or any number itself.
#![tactic(auto, unfolding(crate::specs::Answer::refused, crate::specs::Answer::refused_as))]

ghost use Rattle.std.specs.Prelude.{◌≡◌, ℕ};
ghost use Rattle.lex.specs.Kind.{kind_number};
ghost use Rattle.lex.specs.Answer.{No, number, refused, refused_as};

use crate::kind::Kind;
use crate::refusal::{Reason, Refusal, Span};

// What has a number.
pub trait Numbered: Copy {
    ghost number_of: { Self → ℕ };

    fn as_number(self) -> usize
        ensures { result ≡ number_of self };
}

impl Numbered for Kind {
    ghost number_of = { kind_number };

    fn as_number(self) -> usize {
        Kind::number(self) as usize
    }
}

impl Numbered for Reason {
    ghost number_of = { number };

    fn as_number(self) -> usize {
        Reason::number(self) as usize
    }
}

impl Numbered for u32 {
    ghost number_of = { λ n. n };

    fn as_number(self) -> usize {
        self as usize
    }
}

impl Numbered for usize {
    ghost number_of = { λ n. n };

    fn as_number(self) -> usize {
        self
    }
}

// What has a number for each refusal.
pub trait Refusing: Numbered {
    fn named(reason: Reason) -> Self
        ensures { Self.number_of result ≡ number reason };
}

impl Refusing for Reason {
    fn named(reason: Reason) -> Reason {
        reason
    }
}

impl Refusing for u32 {
    fn named(reason: Reason) -> u32 {
        reason.number()
    }
}

// A refusal that may have any number: an N says which.
#[derive(Clone, Copy, PartialEq, Eq)]
pub struct RefusedAs<N> {
    pub number: N,
    pub first: Span,
    pub second: Span,
}

impl<N: Numbered> RefusedAs<N> {
    // Refused at one place.
    pub fn at(number: N, p: usize) -> RefusedAs<N>
        ensures { refused_as N.number_of result ≡ No (N.number_of number) p p 0 0 }
    {
        RefusedAs {
            number,
            first: Span { start: p, end: p },
            second: Span { start: 0, end: 0 },
        }
    }
}

impl<N: Refusing> From<Refusal> for RefusedAs<N> {
    ghost from_gives = { λ e r. refused_as N.number_of r ≡ refused e };

    fn from(e: Refusal) -> RefusedAs<N> {
        RefusedAs {
            number: N::named(e.reason),
            first: e.first,
            second: e.second,
        }
    }
}

impl From<RefusedAs<Reason>> for Refusal {
    ghost from_gives = { λ e r. refused r ≡ refused_as number e };

    fn from(e: RefusedAs<Reason>) -> Refusal {
        Refusal {
            reason: e.number,
            first: e.first,
            second: e.second,
        }
    }
}
