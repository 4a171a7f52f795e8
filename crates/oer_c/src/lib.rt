// The face for C, and through it for Rust and Python: the operations of `oer`, exported. A slice passes as a pointer and then a length, a
// reply is a struct by value. Nothing is asked of a caller but that each pointer is good for its length. include/oer.h is the manual.
#![tactic(auto)]

ghost use Rattle.std.specs.Prelude.{◌≡◌};
ghost use Rattle.x696.specs.Editing.{read_setting, show_text};
ghost use Rattle.showing.specs.Settings.{answer_as};
ghost use Rattle.showing.specs.Flat.{flat_answer};
ghost use Rattle.oer.specs.Promises.{Checks, Validates, Decodes, Measures, Encodes, Edits};
ghost use Rattle.oer_c.specs.TextParts.{part_as};

use oer::operations::{check, decode, edit, encode, measure, read_setting, validate};
use showing::flat::{FlatSetting, flatten};
use showing::texts::find_text;
use table::reply::Reply;

// Where a shown text stands in the message: found 1, its first octet and its length; or found 0, for the caller's fallback.
#[repr(C)]
#[derive(Clone, Copy)]
pub struct TextPart {
    pub found: u64,
    pub start: u64,
    pub length: u64,
}

#[unsafe(no_mangle)]
pub extern "C" fn oer_check(rows: &[u64], items: &[u64]) -> Reply
    ensures { Checks rows.now items.now result }
{
    check(rows, items)
}

#[unsafe(no_mangle)]
pub extern "C" fn oer_validate(rows: &[u64], items: &[u64], row: u64, msg: &[u8]) -> Reply
    ensures { Validates rows.now items.now row msg.now result }
{
    validate(rows, items, row, msg)
}

#[unsafe(no_mangle)]
pub extern "C" fn oer_decode(
    rows: &[u64],
    items: &[u64],
    row: u64,
    msg: &[u8],
    nodes: &mut [u64],
    contents: &mut [u8],
) -> Reply
    ensures { Decodes rows.now items.now row msg.now nodes.old contents.old nodes.new contents.new result }
{
    decode(rows, items, row, msg, nodes, contents)
}

#[unsafe(no_mangle)]
pub extern "C" fn oer_measure(
    rows: &[u64],
    items: &[u64],
    row: u64,
    nodes: &[u64],
    contents: &[u8],
) -> Reply
    ensures { Measures rows.now items.now row nodes.now contents.now result }
{
    measure(rows, items, row, nodes, contents)
}

#[unsafe(no_mangle)]
pub extern "C" fn oer_encode(
    rows: &[u64],
    items: &[u64],
    row: u64,
    nodes: &[u64],
    contents: &[u8],
    out: &mut [u8],
) -> Reply
    ensures { Encodes rows.now items.now row nodes.now contents.now out.old out.new result }
{
    encode(rows, items, row, nodes, contents, out)
}

#[unsafe(no_mangle)]
pub extern "C" fn oer_edit(
    rows: &[u64],
    items: &[u64],
    row: u64,
    msg: &[u8],
    path: &[u64],
    nodes: &[u64],
    contents: &[u8],
    out: &mut [u8],
) -> Reply
    ensures { Edits rows.now items.now row msg.now path.now nodes.now contents.now out.old out.new result }
{
    edit(rows, items, row, msg, path, nodes, contents, out)
}

// The setting at a path as five numbers.
#[unsafe(no_mangle)]
pub extern "C" fn oer_read_setting(
    rows: &[u64],
    items: &[u64],
    row: u64,
    msg: &[u8],
    path: &[u64],
) -> FlatSetting
    ensures { result ≡ flat_answer (answer_as (read_setting rows.now items.now row msg.now path.now)) }
{
    flatten(read_setting(rows, items, row, msg, path))
}

// The string at a path as the part of the message that holds its octets.
#[unsafe(no_mangle)]
pub extern "C" fn oer_read_text(
    rows: &[u64],
    items: &[u64],
    row: u64,
    msg: &[u8],
    path: &[u64],
) -> TextPart
    ensures { result ≡ part_as (show_text rows.now items.now row msg.now path.now) }
{
    match find_text(rows, items, row, msg, path) {
        None => TextPart {
            found: 0,
            start: 0,
            length: 0,
        },
        Some(p) => TextPart {
            found: 1,
            start: p.start as u64,
            length: (p.end - p.start) as u64,
        },
    }
}
