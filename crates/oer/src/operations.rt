// The public operations of document 01. Each is one call, and asks nothing of its caller. The contracts stand in
// specs/Promises.antt: what the reply is, and what every word of lent memory then holds, on every input.
ghost use Rattle.oer.specs.Promises.{Checks, Validates, Decodes, Measures, Encodes, Edits, Reads, Shows};

use decoding::operations::{decode as decode_message, validate as validate_message};
use editing::operations::edit as edit_message;
use encoding::operations::{encode as encode_list, measure as measure_list};
use octets::faults::Refusal;
use showing::settings::{Setting, read_setting as setting_at};
use showing::texts::show_text as text_at;
use table::check::check as check_table;
use table::reply::Reply;

// Check a table: 1 TABLE SIZE, 2 TABLE ROW at the first row that breaks a rule, or DONE.
// Ruled out, for instance: a check that refuses every table, and one that names a later bad row.
pub fn check(rows: &[u64], items: &[u64]) -> Reply
    ensures { Checks rows.now items.now result }
{
    check_table(rows, items)
}

// Validate a message: DONE with the nodes and the contents octets of its value, or the first refusal in document 01's order.
// Ruled out, for instance: made-up counts, and a refusal placed at the message's end instead of at the innermost value.
pub fn validate(rows: &[u64], items: &[u64], row: u64, msg: &[u8]) -> Reply
    ensures { Validates rows.now items.now row msg.now result }
{
    validate_message(rows, items, row, msg)
}

// Decode a message: the same, then ROOM; on DONE the list of its value stands at the front of the two lent buffers. What lies behind
// it stays, and a refusal leaves both as lent.
// Ruled out, for instance: a decoder that writes nothing, and one that has filled a buffer when it refuses.
pub fn decode(
    rows: &[u64],
    items: &[u64],
    row: u64,
    msg: &[u8],
    nodes: &mut [u64],
    contents: &mut [u8],
) -> Reply
    ensures { Decodes rows.now items.now row msg.now nodes.old contents.old nodes.new contents.new result }
{
    decode_message(rows, items, row, msg, nodes, contents)
}

// Measure a value list: DONE with the number of its value's octets, or the first refusal in document 01's order.
// Ruled out, for instance: a made-up count, and a refusal at another node than the first that is wrong.
pub fn measure(rows: &[u64], items: &[u64], row: u64, nodes: &[u64], contents: &[u8]) -> Reply
    ensures { Measures rows.now items.now row nodes.now contents.now result }
{
    measure_list(rows, items, row, nodes, contents)
}

// Encode a value list: the same, then ROOM; on DONE the octets of its value stand at the front of the lent buffer. What lies behind them
// stays, and a refusal leaves it as lent.
// Ruled out, for instance: an encoder that writes a constant message, and one that has written octets when it refuses.
pub fn encode(
    rows: &[u64],
    items: &[u64],
    row: u64,
    nodes: &[u64],
    contents: &[u8],
    out: &mut [u8],
) -> Reply
    ensures { Encodes rows.now items.now row nodes.now contents.now out.old out.new result }
{
    encode_list(rows, items, row, nodes, contents, out)
}

// Edit a message at a path: on DONE the message of its value with that component replaced by the listed one stands at the front of the
// lent buffer. The order is document 01's: as decode up to LEFT OVER, PATH, the new list, then NODES, LONG and ROOM of the result.
// Ruled out, for instance: an editor that returns the old message, and one that follows only the first step.
pub fn edit(
    rows: &[u64],
    items: &[u64],
    row: u64,
    msg: &[u8],
    path: &[u64],
    nodes: &[u64],
    contents: &[u8],
    out: &mut [u8],
) -> Reply
    ensures { Edits rows.now items.now row msg.now path.now nodes.now contents.now out.old out.new result }
{
    edit_message(rows, items, row, msg, path, nodes, contents, out)
}

// Read the setting at a path, with the refusals of an edit up to PATH.
// Ruled out, for instance: the setting of another component, and a DEFAULT one that is read as absent.
pub fn read_setting(
    rows: &[u64],
    items: &[u64],
    row: u64,
    msg: &[u8],
    path: &[u64],
) -> Result<Setting, Refusal>
    ensures { Reads rows.now items.now row msg.now path.now result }
{
    setting_at(rows, items, row, msg, path)
}

// Show the string at a path: the part of the message that holds its octets, or the caller's whole fallback if the reading is refused,
// absent or no string.
// Ruled out, for instance: a BIT STRING shown with its unused-bits octet, and the fallback for an empty string.
pub fn show_text<'a>(
    rows: &[u64],
    items: &[u64],
    row: u64,
    msg: &'a [u8],
    path: &[u64],
    fallback: &'a [u8],
) -> &'a [u8]
    ensures { Shows rows.now items.now row msg.now path.now fallback.now result.now }
{
    text_at(rows, items, row, msg, path, fallback)
}
