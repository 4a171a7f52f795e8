// Letter l: measure, and encode. Its numbers: the row, the size of the buffer to lend, the nodes, the contents.
use crate::print::print_octets;
use crate::{MOST_NODE_WORDS, MOST_OCTETS};
use cases::numbers::Numbers;
use cases::tables::Table;
use oer::operations::{encode, measure};
use std::io;
use std::io::Write;

// Reads the case, and lends the asked part of the buffer, if it has so much.
pub fn run_list<W: Write>(to: &mut W, table: Table<'_>, mut case: Numbers<'_>) -> io::Result<()> {
    let Table { rows, items } = table;
    let mut nodes = [0u64; MOST_NODE_WORDS];
    let mut contents = [0u8; MOST_OCTETS];
    let mut out = [7u8; MOST_OCTETS];
    let row = case.number();
    let room = case.number() as usize;
    let nodes = case.words(&mut nodes);
    let contents = case.octets(&mut contents);
    let Some(out) = out.get_mut(..room) else {
        return Ok(());
    };
    writeln!(to, "{}", measure(rows, items, row, nodes, contents))?;
    let reply = encode(rows, items, row, nodes, contents, out);
    write!(to, "{reply}")?;
    print_octets(to, out)
}
