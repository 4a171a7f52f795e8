// The kind of a row's type, and the number that stands for it in a row's first word and in a node (document 01, "The type table").
ghost use Rattle.std.specs.Prelude.{◌≡◌, ◌<◌, ◌≤◌};
ghost use Rattle.table.specs.Kind.{code_of, Decodes};

use std::error::Error;
use std::fmt;

#[derive(Clone, Copy, Debug, PartialEq, Eq)]
pub enum Kind {
    Boolean = 1,
    Integer = 2,
    Enumerated = 3,
    Single = 4,
    Double = 5,
    Null = 6,
    OctetString = 7,
    BitString = 8,
    VisibleString = 9,
    Sequence = 10,
    SequenceOf = 11,
    Choice = 12,
}

impl Kind {
    // The kind's number.
    pub fn number(self) -> u64
        ensures { result ≡ code_of self }
    {
        self as u64
    }
}

// A number that stands for no kind: 0, which is ABSENT in a node, or one above 12.
#[derive(Clone, Copy, Debug, PartialEq, Eq)]
pub struct UnknownKind(pub u64);

impl TryFrom<u64> for Kind {
    type Error = UnknownKind;

    ghost try_from_gives = { Decodes };

    fn try_from(number: u64) -> Result<Self, UnknownKind> {
        match number {
            1 => Ok(Kind::Boolean),
            2 => Ok(Kind::Integer),
            3 => Ok(Kind::Enumerated),
            4 => Ok(Kind::Single),
            5 => Ok(Kind::Double),
            6 => Ok(Kind::Null),
            7 => Ok(Kind::OctetString),
            8 => Ok(Kind::BitString),
            9 => Ok(Kind::VisibleString),
            10 => Ok(Kind::Sequence),
            11 => Ok(Kind::SequenceOf),
            12 => Ok(Kind::Choice),
            _ => Err(UnknownKind(number)),
        }
    }
}

impl fmt::Display for UnknownKind {
    fn fmt<W: fmt::Write>(&self, f: &mut fmt::Formatter<W>) -> fmt::Result {
        write!(f, "no kind has number {}", self.0)
    }
}

impl Error for UnknownKind {}
