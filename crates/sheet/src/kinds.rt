ghost use Rattle.std.specs.Prelude.{◌≡◌};
ghost use Rattle.sheet.specs.Entry.{kind_number};
ghost use Rattle.sheet.specs.Kind.{Decodes};

use outcome::Refusal;

// The kinds of an entry, under their numbers.
#[derive(Clone, Copy, PartialEq, Eq, Debug)]
pub enum Kind {
    True = 0,
    Not = 1,
    And = 2,
    Or = 3,
    Way = 4,
    Same = 5,
    Differ = 6,
}

impl Kind {
    // The number of the kind, which is its byte in a sheet.
    pub fn number(self) -> u8
        ensures { result ≡ kind_number self }
    {
        self as u8
    }
}

impl TryFrom<u8> for Kind {
    type Error = Refusal;

    ghost try_from_gives = { Decodes };

    // The kind of a number; refused where there is none.
    fn try_from(number: u8) -> Result<Kind, Refusal> {
        match number {
            0 => Ok(Kind::True),
            1 => Ok(Kind::Not),
            2 => Ok(Kind::And),
            3 => Ok(Kind::Or),
            4 => Ok(Kind::Way),
            5 => Ok(Kind::Same),
            6 => Ok(Kind::Differ),
            _ => Err(Refusal::OtherKind),
        }
    }
}
