// Lists of words and of octets in print.
use std::fmt::Display;
use std::io;
use std::io::Write;

// Each number behind a space.
pub fn show_list<W: Write, T: Display>(to: &mut W, numbers: &[T]) -> io::Result<()> {
    for n in numbers {
        write!(to, " {n}")?;
    }
    Ok(())
}
