// Refusals and kinds in words, for people.

ghost use Rattle.std.specs.Prelude.{◌≡◌, Some};
ghost use Rattle.lex.specs.Words.{reason_words, kind_words, refusal_words};

use crate::kind::Kind;
use crate::refusal::{Reason, Refusal};
use std::fmt;

impl Reason {
    // What it means. Behind the last words of `TableTooSmall` stands how many records are needed.
    fn words(self) -> &'static str
        ensures { result.now ≡ reason_words self }
    {
        match self {
            Reason::TooLong => "the input is longer than 1,048,576 bytes",
            Reason::NotUtf8 => "these bytes are no UTF-8",
            Reason::Unexpected => "this cannot stand here",
            Reason::EndOfInput => "the input ends here, and something is still needed",
            Reason::QuotedNeverClosed =>
                "this quoted attribute string is never closed: its quote does not come again",
            Reason::StrayInText => "a text cannot hold this byte: write it as a string in braces",
            Reason::NamesDiffer => "this closing name differs from the opening name",
            Reason::FragmentClosedByName => "a fragment is closed by a name",
            Reason::ElementClosedByFragment => "an element is closed by </>",
            Reason::DashAfterDot => "a part of a name after a dot has a dash",
            Reason::EmptyValue => "the braces of an attribute hold no expression",
            Reason::Adjacent => "a second element stands beside one: wrap them in <> and </>",
            Reason::AfterStage => "something stands behind the stage",
            Reason::TooDeep => "this is more than 64 levels deep",
            Reason::TableTooSmall =>
                "the table has room for fewer records than are needed, which is ",
            Reason::CommaInBraces => "a comma stands behind the expression in braces",
            Reason::CommentNeverClosed => "this comment is never closed: no */ follows",
            Reason::StringNeverClosed =>
                "this string in braces is never closed: its quote does not come again",
        }
    }
}

impl Kind {
    // What a record of this kind is called.
    fn words(self) -> &'static str
        ensures { result.now ≡ kind_words self }
    {
        match self {
            Kind::Element => "element",
            Kind::Fragment => "fragment",
            Kind::Identifier => "identifier",
            Kind::Reference => "reference",
            Kind::This => "this",
            Kind::Namespaced => "namespaced name",
            Kind::Member => "member name",
            Kind::Attribute => "attribute",
            Kind::SpreadAttribute => "spread attribute",
            Kind::Quoted => "quoted string",
            Kind::Container => "container",
            Kind::EmptyExpression => "empty expression",
            Kind::SpreadChild => "spread child",
            Kind::Text => "text",
            Kind::Expression => "expression",
            Kind::OtherPart => "part",
            Kind::ClosingTag => "closing tag",
            Kind::OpeningTag => "opening tag",
        }
    }
}

impl fmt::Display for Reason {
    ghost output = { λ r. Some (reason_words r) };

    fn fmt<W: fmt::Write>(&self, f: &mut fmt::Formatter<W>) -> fmt::Result {
        f.write_str(self.words())
    }
}

impl fmt::Display for Kind {
    ghost output = { λ k. Some (kind_words k) };

    fn fmt<W: fmt::Write>(&self, f: &mut fmt::Formatter<W>) -> fmt::Result {
        f.write_str(self.words())
    }
}

// What is wrong, and its number.
impl fmt::Display for Refusal {
    ghost output = { λ r. Some (refusal_words r) };

    fn fmt<W: fmt::Write>(&self, f: &mut fmt::Formatter<W>) -> fmt::Result {
        let number = self.reason.number();
        let start = self.first.start;
        match self.reason {
            Reason::Unexpected if start < self.first.end => write!(
                f,
                "the line ends inside this string in braces: close it on its own line (refusal {number})"
            ),
            Reason::TableTooSmall => write!(
                f,
                "{}{start} (refusal {number})",
                Reason::TableTooSmall
            ),
            reason => write!(f, "{reason} (refusal {number})"),
        }
    }
}
