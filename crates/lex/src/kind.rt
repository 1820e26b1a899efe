// The kinds of records of document 01.

ghost use Rattle.std.specs.Prelude.{◌≡◌};
ghost use Rattle.lex.specs.Kind.{kind_number, IsKindOf};

// By the names and with the numbers that the definition gives them.
#[derive(Clone, Copy, PartialEq, Eq)]
pub enum Kind {
    Element = 1,
    Fragment = 2,
    Identifier = 3,
    Reference = 4,
    This = 5,
    Namespaced = 6,
    Member = 7,
    Attribute = 8,
    SpreadAttribute = 9,
    Quoted = 10,
    Container = 11,
    EmptyExpression = 12,
    SpreadChild = 13,
    Text = 14,
    Expression = 15,
    OtherPart = 16,
    ClosingTag = 17,
    OpeningTag = 18,
}

impl Kind {
    pub fn number(self) -> u32
        ensures { result ≡ kind_number self }
    {
        self as u32
    }
}

// A number that no kind has.
#[derive(Clone, Copy, PartialEq, Eq)]
pub struct UnknownKind(pub u32);

impl TryFrom<u32> for Kind {
    type Error = UnknownKind;

    ghost try_from_gives = { IsKindOf };

    fn try_from(number: u32) -> Result<Self, UnknownKind> {
        match number {
            1 => Ok(Kind::Element),
            2 => Ok(Kind::Fragment),
            3 => Ok(Kind::Identifier),
            4 => Ok(Kind::Reference),
            5 => Ok(Kind::This),
            6 => Ok(Kind::Namespaced),
            7 => Ok(Kind::Member),
            8 => Ok(Kind::Attribute),
            9 => Ok(Kind::SpreadAttribute),
            10 => Ok(Kind::Quoted),
            11 => Ok(Kind::Container),
            12 => Ok(Kind::EmptyExpression),
            13 => Ok(Kind::SpreadChild),
            14 => Ok(Kind::Text),
            15 => Ok(Kind::Expression),
            16 => Ok(Kind::OtherPart),
            17 => Ok(Kind::ClosingTag),
            18 => Ok(Kind::OpeningTag),
            _ => Err(UnknownKind(number)),
        }
    }
}
