// Letter e: edit. Its numbers: the row, the size of the buffer to lend, the message, the path, and the new value's
// nodes and contents.
use crate::print::print_octets;
use crate::{MOST_NODE_WORDS, MOST_OCTETS, MOST_STEPS};
use cases::numbers::Numbers;
use cases::tables::Table;
use oer::operations::edit;
use std::io;
use std::io::Write;

// Reads the case, and lends the asked part of the buffer, if it has so much.
pub fn run_edit<W: Write>(to: &mut W, table: Table<'_>, mut case: Numbers<'_>) -> io::Result<()> {
    let Table { rows, items } = table;
    let mut msg = [0u8; MOST_OCTETS];
    let mut path = [0u64; MOST_STEPS];
    let mut nodes = [0u64; MOST_NODE_WORDS];
    let mut contents = [0u8; MOST_OCTETS];
    let mut out = [7u8; MOST_OCTETS];
    let row = case.number();
    let room = case.number() as usize;
    let msg = case.octets(&mut msg);
    let path = case.words(&mut path);
    let nodes = case.words(&mut nodes);
    let contents = case.octets(&mut contents);
    let Some(out) = out.get_mut(..room) else {
        return Ok(());
    };
    let reply = edit(rows, items, row, msg, path, nodes, contents, out);
    write!(to, "{reply}")?;
    print_octets(to, out)
}
