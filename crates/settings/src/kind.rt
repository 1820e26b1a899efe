// The kinds of records of a settings store.

ghost use Rattle.std.specs.Prelude.{◌≡◌};
ghost use Rattle.settings.specs.Kind.{kind_named};

use crate::refusal::StoreRefusal;

const DEPTH_KIND: u8 = 1;

const LENGTH_KIND: u8 = 2;

// Unknown kinds from here on are skipped.
const SKIPPED_FROM: u8 = 128;

#[derive(Clone, Copy, PartialEq, Eq)]
pub(crate) enum Kind {
    Depth,
    Length,
    Skipped,
}

impl TryFrom<u8> for Kind {
    type Error = StoreRefusal;

    ghost try_from_gives = { λ b r. r ≡ kind_named b };

    fn try_from(b: u8) -> Result<Kind, StoreRefusal> {
        match b {
            DEPTH_KIND => Ok(Kind::Depth),
            LENGTH_KIND => Ok(Kind::Length),
            SKIPPED_FROM.. => Ok(Kind::Skipped),
            unknown => Err(StoreRefusal::UnknownKind(unknown)),
        }
    }
}
