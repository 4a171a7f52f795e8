// Runs the check of a type table on the tables of standard input and prints each reply: number, part, place and counts.
// A line that begins with `#` names a case and is printed as it stands. Any other line is a table: how many words its rows have, the
// words, how many words its items have, the words; decimal numbers parted by single spaces.
#![tactic(auto)]

use cases::input::{megabyte, read_full};
use cases::lines::{Line, Lines};
use cases::numbers::Numbers;
use cases::tables::{MOST_ITEM_WORDS, MOST_ROW_WORDS, Table};
use std::io;
use std::io::Write;
use table::check::check;

// The table whose line this is.
fn check_line<W: Write>(to: &mut W, line: Line<'_>) -> io::Result<()> {
    let mut rows = [0u64; MOST_ROW_WORDS];
    let mut items = [0u64; MOST_ITEM_WORDS];
    let table = Table::read(Numbers { left: line.text }, &mut rows, &mut items);
    writeln!(to, "{}", check(table.rows, table.items))
}

fn run<W: Write>(to: &mut W, text: &[u8]) -> io::Result<()> {
    for line in Lines(text) {
        match line.octets {
            [b'#', ..] => to.write_all(line.octets)?,
            _ => check_line(to, line)?,
        }
    }
    Ok(())
}

fn main(rt: HostRuntime) -> io::Result<()> {
    let mut buf = megabyte();
    let text = read_full(&mut rt.reader(), &mut buf)?;
    run(&mut io::writer(&rt), text)
}
