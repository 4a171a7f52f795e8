// The public operations on a message: validate, and decode. Neither asks anything of its caller.
// The order is document 01's: 1, 2, 3; LONG of the message; the first fault in reading order; LEFT OVER; ROOM.
ghost use Rattle.std.specs.Prelude.{◌≡◌, ◌/◌, ◌<◌, ◌≤◌, length};
ghost use Rattle.x696.specs.Table.{row_width, type_of};
ghost use Rattle.x696.specs.Reply.{in_part};
ghost use Rattle.x696.specs.Operations.{read_message, value_in, validate as validated, decode as decoded};
ghost use Rattle.table.specs.Replies.{as_reply};
ghost use Rattle.decoding.specs.Replied.{AskedAnswer, ValueAnswer, PutsValue, Decodes};

use octets::faults::{Cause, Part, Refusal};
use reading::value::read_value;
use table::reply::{Reply, done};
use table::sound::Table;
use table::words::rows_in;

// The table, if it is sound and has the asked row; or the refusal: 1, 2, 3.
pub fn asked_table<'a>(rows: &'a [u64], items: &'a [u64], row: u64) -> Result<Table<'a>, Refusal>
    ensures { AskedAnswer rows.now items.now row result }
{
    let table = Table::checked(rows, items)?;
    let past = rows_in(rows) as u64 <= row;
    if past {
        return Err(Cause::UnknownType.at(0).in_part(Part::Table));
    }
    Ok(table)
}

// The sizes of a message's value.
#[derive(Clone, Copy, Debug, PartialEq, Eq)]
pub struct Counts {
    pub nodes: usize,
    pub octets: usize,
}

// Reads the whole message with nothing lent: 4, the first fault, 9.
fn survey_message(table: &Table, row: usize, msg: &[u8]) -> Result<Counts, Refusal>
    requires { row < length table.now.rows.now / row_width }
    ensures { ValueAnswer (in_part 1 (read_message (type_of table.now.rows.now table.now.items.now row) msg.now)) result }
{
    let long = 65535 < msg.len();
    if long {
        return Err(Cause::Long.at(0).in_part(Part::Message));
    }
    let mut nodes = [0u64; 1];
    let mut contents = [0u8; 1];
    match read_value(
        table,
        row,
        msg,
        0,
        0,
        0,
        &mut nodes[..0],
        &mut contents[..0],
    ) {
        Err(fault) => Err(fault.in_part(Part::Message)),
        Ok(end) => {
            let left_over = end.at < msg.len();
            if left_over {
                return Err(Cause::LeftOver.at(end.at).in_part(Part::Message));
            }
            Ok(Counts {
                nodes: end.count,
                octets: end.used,
            })
        }
    }
}

// The value of a message, with all refusals before ROOM.
pub fn survey(rows: &[u64], items: &[u64], row: u64, msg: &[u8]) -> Result<Counts, Refusal>
    ensures { ValueAnswer (value_in rows.now items.now row msg.now) result }
{
    let table = asked_table(rows, items, row)?;
    survey_message(&table, row as usize, msg)
}

// Validate a message: the nodes and contents octets of its value.
// Ruled out, for instance: a reply with made-up counts, and a refusal at the message's end instead of the value's place.
pub fn validate(rows: &[u64], items: &[u64], row: u64, msg: &[u8]) -> Reply
    ensures { result ≡ as_reply (validated rows.now items.now row msg.now) }
{
    match survey(rows, items, row, msg) {
        Ok(c) => done(c.nodes as u64, c.octets as u64),
        Err(refusal) => Reply::from(refusal),
    }
}

// The value list of a message, put at the front of the two lent buffers; or the refusal, with nothing put.
fn put_value(
    rows: &[u64],
    items: &[u64],
    row: u64,
    msg: &[u8],
    nodes: &mut [u64],
    contents: &mut [u8],
) -> Result<Counts, Refusal>
    ensures { PutsValue (decoded rows.now items.now row msg.now nodes.old contents.old) nodes.new contents.new result }
{
    let table = asked_table(rows, items, row)?;
    let value = survey_message(&table, row as usize, msg)?;
    if nodes.len() / 2 < value.nodes {
        return Err(Cause::Room.at(0).in_part(Part::Result));
    }
    let lacks = contents.len() < value.octets;
    if lacks {
        return Err(Cause::Room.at(0).in_part(Part::Result));
    }
    let _again = read_value(&table, row as usize, msg, 0, 0, 0, nodes, contents);
    Ok(value)
}

// Decode a message: the same, and the value list at the front of the two lent buffers; 12 where either is too small. Words and octets
// past the counts stay, and every refusal leaves both buffers as lent.
// Ruled out, for instance: a decoder that writes nothing, and one that fills a buffer and then refuses.
pub fn decode(
    rows: &[u64],
    items: &[u64],
    row: u64,
    msg: &[u8],
    nodes: &mut [u64],
    contents: &mut [u8],
) -> Reply
    ensures { Decodes (decoded rows.now items.now row msg.now nodes.old contents.old) nodes.new contents.new result }
{
    match put_value(rows, items, row, msg, nodes, contents) {
        Ok(value) => done(value.nodes as u64, value.octets as u64),
        Err(refusal) => Reply::from(refusal),
    }
}
