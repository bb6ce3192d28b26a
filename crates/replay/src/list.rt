// Reading a list case by case: op, n, input, m, expected answer.
use crate::number::be16;
use std::io;
use std::io::{ErrorKind, Read};

const LENGTH_OCTETS: usize = 2;

// The largest input and answer of a list.
pub const MAX_INPUT: usize = 8192;

pub const MAX_ANSWER: usize = 4096;

// A case, whose input and expected answer stand in lent octets.
#[derive(Clone, Copy)]
pub struct Case<'a> {
    pub op: u8,
    pub input: &'a [u8],
    pub expected: &'a [u8],
}

// Why there is no case: the list ends within it, or it can't be read.
#[derive(Drop)]
pub enum ListError {
    Cut,
    Io(io::Error),
}

impl From<io::Error> for ListError {
    fn from(e: io::Error) -> ListError {
        match e.kind() {
            ErrorKind::UnexpectedEof => ListError::Cut,
            _ => ListError::Io(e),
        }
    }
}

// The number of octets that a field has, and then the field, at the front of lent octets.
fn field<'a>(file: &mut impl Read, lent: &'a mut [u8]) -> Result<&'a [u8], ListError> {
    let mut length = [0u8; LENGTH_OCTETS];
    file.read_exact(&mut length)?;
    let n = be16(&length, 0) as usize;
    if lent.len() < n {
        return Err(ListError::Cut);
    }
    let octets = &mut lent[..n];
    file.read_exact(octets)?;
    Ok(octets)
}

// The next case, or none where the list ends.
pub fn next_case<'a>(
    file: &mut impl Read,
    input: &'a mut [u8],
    expected: &'a mut [u8],
) -> Result<Option<Case<'a>>, ListError> {
    let mut op = [0u8];
    if file.read(&mut op)? == 0 {
        return Ok(None);
    }
    Ok(Some(Case {
        op: op[0],
        input: field(file, input)?,
        expected: field(file, expected)?,
    }))
}
