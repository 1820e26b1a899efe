// Why a settings store is refused: the refusals of document 02 that no reading gives.

ghost use Rattle.std.specs.Prelude.{◌≡◌};
ghost use Rattle.jsx.specs.Settings.{unset};
ghost use Rattle.settings.specs.Refusal.{number, refused};

// By the names that the definition gives them. All but an unknown kind have the place of the record.
#[derive(Clone, Copy, PartialEq, Eq)]
pub enum StoreRefusal {
    WrongMark(usize),
    CutShort(usize),
    UnknownKind(u8),
    BadSetting(usize),
}

impl StoreRefusal {
    pub fn number(self) -> u32
        ensures { result ≡ number self }
    {
        match self {
            StoreRefusal::WrongMark(_) => 31,
            StoreRefusal::CutShort(_) => 32,
            StoreRefusal::UnknownKind(_) => 33,
            StoreRefusal::BadSetting(_) => 34,
        }
    }

    // Start and end; of an unknown kind, the kind and 0.
    pub fn places(self) -> (usize, usize)
        ensures { refused self ≡ unset (number self) result.0 result.1 }
    {
        match self {
            StoreRefusal::WrongMark(at)
            | StoreRefusal::CutShort(at)
            | StoreRefusal::BadSetting(at) => (at, at),
            StoreRefusal::UnknownKind(kind) => (usize::from(kind), 0),
        }
    }
}
