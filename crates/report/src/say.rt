// How numbers of things are printed.
ghost use Rattle.std.specs.Prelude.{Some};

use std::fmt;

// A number of things by their noun, which has an s unless there is one.
#[derive(Clone, Copy)]
pub struct Counted(pub u64, pub &'static str);

impl fmt::Display for Counted {
    ghost use Rattle.report.specs.Messages.{counted_text};

    ghost output = { λ counted. Some (counted_text counted) };

    fn fmt<W: fmt::Write>(&self, f: &mut fmt::Formatter<W>) -> fmt::Result {
        let Counted(n, noun) = self;
        let s = if *n == 1 { "" } else { "s" };
        write!(f, "{n} {noun}{s}")
    }
}
