// A reply (document 01, "Replies"): number, part, place and counts. A refusal has zero counts.
ghost use Rattle.std.specs.Prelude.{◌≡◌};
ghost use Rattle.x696.specs.Reply.{done_reply};
ghost use Rattle.table.specs.Replies.{as_reply, refused_reply};

use octets::faults::Refusal;

#[repr(C)]
#[derive(Clone, Copy, Debug, PartialEq, Eq)]
pub struct Reply {
    pub number: u64,
    pub part: u64,
    pub place: u64,
    pub nodes: u64,
    pub octets: u64,
}

impl From<Refusal> for Reply {
    ghost from_gives = { λ r q. q ≡ refused_reply r };

    fn from(refusal: Refusal) -> Self {
        Reply {
            number: refusal.cause.number(),
            part: refusal.part.number(),
            place: refusal.place as u64,
            nodes: 0,
            octets: 0,
        }
    }
}

pub fn done(nodes: u64, octets: u64) -> Reply
    ensures { result ≡ as_reply (done_reply nodes octets) }
{
    Reply {
        number: 0,
        part: 0,
        place: 0,
        nodes,
        octets,
    }
}

// The five numbers, parted by spaces.
impl std::fmt::Display for Reply {
    ghost use Rattle.std.specs.Prelude.{Some, codes, decimal, ◌++◌};

    ghost output = { λ r. Some (decimal r.number ++ (codes " " ++ (decimal r.part ++ (codes " " ++
        (decimal r.place ++ (codes " " ++ (decimal r.nodes ++ (codes " " ++ decimal r.octets)))))))) };

    fn fmt<W: std::fmt::Write>(&self, f: &mut std::fmt::Formatter<W>) -> std::fmt::Result {
        write!(
            f,
            "{} {} {} {} {}",
            self.number, self.part, self.place, self.nodes, self.octets
        )
    }
}
