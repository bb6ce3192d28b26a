// A row of a dump.
use std::{fmt, io};

// The most octets of a row, and the columns of one of them: a space, and two digits.
pub const ROW: usize = 16;

const COLUMNS: usize = 3;

// Octets in hexadecimal, each with a space before it.
#[derive(Clone, Copy)]
struct Hex<'a>(&'a [u8]);

// Octets as characters: themselves where they are ones of ASCII that print.
#[derive(Clone, Copy)]
struct Characters<'a>(&'a [u8]);

impl fmt::Display for Hex<'_> {
    fn fmt<W: fmt::Write>(&self, f: &mut fmt::Formatter<W>) -> fmt::Result {
        for x in self.0 {
            write!(f, " {x:02x}")?;
        }
        Ok(())
    }
}

impl fmt::Display for Characters<'_> {
    fn fmt<W: fmt::Write>(&self, f: &mut fmt::Formatter<W>) -> fmt::Result {
        for x in self.0 {
            let shown = if x.is_ascii_graphic() || *x == b' ' {
                *x
            } else {
                b'.'
            };
            f.write_char(char::from(shown))?;
        }
        Ok(())
    }
}

// The offset of its first octet, its octets, and their characters behind the columns of a full row.
pub fn say_row(rt: &impl Print, offset: usize, s: &[u8]) -> io::Result<()> {
    let rest = COLUMNS * ROW.saturating_sub(s.len());
    println!(rt; "{offset:08x} {}{:rest$}  |{}|", Hex(s), "", Characters(s))
}

// Octets in hexadecimal on one line.
pub fn say_octets(rt: &impl Print, s: &[u8]) -> io::Result<()> {
    print!(rt; "{}", Hex(s))
}
