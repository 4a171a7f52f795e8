// Letter m: validate, and decode. Its numbers: the row, the sizes of the two buffers to lend, the message.
use crate::print::print_octets;
use crate::{MOST_NODE_WORDS, MOST_OCTETS};
use cases::numbers::Numbers;
use cases::show::show_list;
use cases::tables::Table;
use oer::operations::{decode, validate};
use std::io;
use std::io::Write;

// Reads the case, and lends the asked parts of the buffers, if they have so much.
pub fn run_message<W: Write>(
    to: &mut W,
    table: Table<'_>,
    mut case: Numbers<'_>,
) -> io::Result<()> {
    let Table { rows, items } = table;
    let mut msg = [0u8; MOST_OCTETS];
    let mut nodes = [7u64; MOST_NODE_WORDS];
    let mut contents = [7u8; MOST_OCTETS];
    let row = case.number();
    let words = case.number() as usize;
    let octets = case.number() as usize;
    let msg = case.octets(&mut msg);
    let (Some(nodes), Some(contents)) = (nodes.get_mut(..words), contents.get_mut(..octets)) else {
        return Ok(());
    };
    writeln!(to, "{}", validate(rows, items, row, msg))?;
    let reply = decode(rows, items, row, msg, nodes, contents);
    write!(to, "{reply} |")?;
    show_list(to, nodes)?;
    print_octets(to, contents)
}
