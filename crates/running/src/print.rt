// A case's answers in print.
use cases::show::show_list;
use std::io;
use std::io::Write;

// The octets that a line ends with.
pub fn print_octets<W: Write>(to: &mut W, octets: &[u8]) -> io::Result<()> {
    to.write_all(b" |")?;
    show_list(to, octets)?;
    to.write_all(b"\n")
}
