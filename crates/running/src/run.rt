// A case file, line by line: names are printed, tables kept, and each case is run by its letter.
use crate::edits::run_edit;
use crate::lists::run_list;
use crate::messages::run_message;
use crate::settings::run_setting;
use cases::input::{megabyte, read_full};
use cases::lines::Lines;
use cases::numbers::Numbers;
use cases::tables::{MOST_ITEM_WORDS, MOST_ROW_WORDS, Table};
use oer::operations::check;
use std::io;
use std::io::Write;

// The case of this letter over this table.
fn run_case<W: Write>(
    to: &mut W,
    letter: u8,
    table: Table<'_>,
    case: Numbers<'_>,
) -> io::Result<()> {
    match letter {
        b'c' => writeln!(to, "{}", check(table.rows, table.items)),
        b'm' => run_message(to, table, case),
        b'l' => run_list(to, table, case),
        b'e' => run_edit(to, table, case),
        b's' => run_setting(to, table, case),
        _ => to.write_all(b"\n"),
    }
}

// Runs the cases of a text, each over the table of the last line that has one. A table is read at its own line, and not again at each
// case over it; how much of the memory it fills is kept, since no table may stand while its memory is lent anew.
pub fn run<W: Write>(to: &mut W, text: &[u8]) -> io::Result<()> {
    let mut rows = [0u64; MOST_ROW_WORDS];
    let mut items = [0u64; MOST_ITEM_WORDS];
    let mut row_words = 0;
    let mut item_words = 0;
    for line in Lines(text) {
        match line.octets {
            [b'#', ..] => to.write_all(line.octets)?,
            [b't', _, _, ..] => {
                let table = Table::read(line.numbers(), &mut rows, &mut items);
                row_words = table.rows.len();
                item_words = table.items.len();
            }
            [letter, _, _, ..] => {
                let (Some(rows), Some(items)) = (rows.get(..row_words), items.get(..item_words))
                else {
                    continue;
                };
                run_case(to, *letter, Table { rows, items }, line.numbers())?;
            }
            _ => to.write_all(b"\n")?,
        }
    }
    Ok(())
}

// Runs the case file in standard input.
pub fn run_input<R: Input + Print>(rt: &R) -> io::Result<()> {
    let mut buf = megabyte();
    let text = read_full(&mut rt.reader(), &mut buf)?;
    run(&mut io::writer(rt), text)
}
