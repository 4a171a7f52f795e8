// A string at a path, shown as the part of the message that holds its octets, or the caller's whole fallback text.
ghost use Rattle.std.specs.Prelude.{◌≡◌, ◌+◌, ◌-◌, ◌<◌, ◌≤◌, length};
ghost use Rattle.x696.specs.Editing.{show_text, shown_octets};
ghost use Rattle.table.specs.Kind.{code_of};
ghost use Rattle.showing.specs.Texts.{contents_size, TextAnswer};

use finding::places::find_in;
use octets::units::Bits;
use table::kind::Kind;
use table::words::known_kind;

// A part of the message.
#[derive(Clone, Copy)]
pub struct Part {
    pub start: usize,
    pub end: usize,
}

// How many octets the contents of a string fill, by its row's kind and its number; 0 for other kinds.
fn contents_size(kind: Kind, number: u64) -> u64
    ensures { result ≡ contents_size (code_of kind) number }
{
    match kind {
        Kind::BitString => Bits(number).octets().0,
        _ => number,
    }
}

// Where the string at a path stands in the message, without its unused-bits octet: a string's contents are the last of
// its octets.
pub fn find_text(rows: &[u64], items: &[u64], row: u64, msg: &[u8], path: &[u64]) -> Option<Part>
    ensures { TextAnswer msg.now (show_text rows.now items.now row msg.now path.now) result }
{
    match find_in(rows, items, row, msg, path) {
        Err(_refusal) => None,
        Ok(w) => {
            let s = w.spot;
            if s.absent {
                return None;
            }
            let kind = known_kind(rows, s.component.row);
            match kind {
                Kind::OctetString | Kind::BitString | Kind::VisibleString => Some(Part {
                    start: s.end - contents_size(kind, s.number) as usize,
                    end: s.end,
                }),
                _ => None,
            }
        }
    }
}

// Shows a text: a part of the message, or the whole fallback if the reading is refused, absent or no string.
// Ruled out, for instance: a BIT STRING with its unused-bits octet, and the fallback for an empty string.
pub fn show_text<'a>(
    rows: &[u64],
    items: &[u64],
    row: u64,
    msg: &'a [u8],
    path: &[u64],
    fallback: &'a [u8],
) -> &'a [u8]
    ensures { result.now ≡ shown_octets (show_text rows.now items.now row msg.now path.now) msg.now fallback.now }
{
    match find_text(rows, items, row, msg, path) {
        None => fallback,
        Some(p) => {
            let start = p.start;
            let end = p.end;
            &msg[start..end]
        }
    }
}
