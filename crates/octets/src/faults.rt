// Why and where something is refused: one fault type from leaf to face.
ghost use Rattle.std.specs.Prelude.{◌≡◌};
ghost use Rattle.octets.specs.Cause.{code_of};
ghost use Rattle.octets.specs.Part.{part_of, refusal_in};
ghost use Rattle.octets.specs.Answers.{fault};

// Why something is refused (document 01, "Replies").
#[derive(Clone, Copy, Debug, PartialEq, Eq)]
pub enum Cause {
    TableSize,
    TableRow,
    UnknownType,
    Long,
    Short,
    NotCanonical,
    NotAllowed,
    Wide,
    LeftOver,
    Nodes,
    BadList,
    Room,
    Path,
}

impl Cause {
    // The refusal's number.
    pub fn number(self) -> u64
        ensures { result ≡ code_of self }
    {
        match self {
            Cause::TableSize => 1,
            Cause::TableRow => 2,
            Cause::UnknownType => 3,
            Cause::Long => 4,
            Cause::Short => 5,
            Cause::NotCanonical => 6,
            Cause::NotAllowed => 7,
            Cause::Wide => 8,
            Cause::LeftOver => 9,
            Cause::Nodes => 10,
            Cause::BadList => 11,
            Cause::Room => 12,
            Cause::Path => 13,
        }
    }

    // The refusal for this cause at a place.
    pub fn at(self, place: usize) -> Fault
        ensures { result ≡ fault self place }
    {
        Fault { cause: self, place }
    }
}

// Why and where a message or a list is refused.
#[derive(Clone, Copy, Debug, PartialEq, Eq)]
pub struct Fault {
    pub cause: Cause,
    pub place: usize,
}

impl Fault {
    // The refusal of an operation for a fault in this part of what it was lent.
    pub fn in_part(self, part: Part) -> Refusal
        ensures { result ≡ refusal_in part self }
    {
        Refusal {
            cause: self.cause,
            part,
            place: self.place,
        }
    }
}

// What a refusal is about.
#[derive(Clone, Copy, Debug, PartialEq, Eq)]
pub enum Part {
    Table,
    Message,
    List,
    Path,
    Result,
}

impl Part {
    // The part's number.
    pub fn number(self) -> u64
        ensures { result ≡ part_of self }
    {
        match self {
            Part::Table => 0,
            Part::Message => 1,
            Part::List => 2,
            Part::Path => 3,
            Part::Result => 4,
        }
    }
}

// Why, in which part and where an operation refuses.
#[derive(Clone, Copy, Debug, PartialEq, Eq)]
pub struct Refusal {
    pub cause: Cause,
    pub part: Part,
    pub place: usize,
}
