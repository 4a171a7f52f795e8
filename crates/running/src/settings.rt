// Letter s: read a setting, and show a text. Its numbers: the row, the message, the path, the fallback.
use crate::print::print_octets;
use crate::{MOST_FALLBACK, MOST_OCTETS, MOST_STEPS};
use cases::numbers::Numbers;
use cases::tables::Table;
use oer::operations::{read_setting, show_text};
use showing::flat::flatten;
use std::io;
use std::io::Write;

pub fn run_setting<W: Write>(
    to: &mut W,
    table: Table<'_>,
    mut case: Numbers<'_>,
) -> io::Result<()> {
    let Table { rows, items } = table;
    let mut msg = [0u8; MOST_OCTETS];
    let mut path = [0u64; MOST_STEPS];
    let mut fallback = [0u8; MOST_FALLBACK];
    let row = case.number();
    let msg = case.octets(&mut msg);
    let path = case.words(&mut path);
    let fallback = case.octets(&mut fallback);
    write!(to, "{}", flatten(read_setting(rows, items, row, msg, path)))?;
    print_octets(to, show_text(rows, items, row, msg, path, fallback))
}
