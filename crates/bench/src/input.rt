// Reading lines: octets come by chunks, and a line is put together in fixed octets.
use capture::text::{Class, from, front, run};
use std::io;
use std::io::Read;

const CHUNK: usize = 65536;

// The longest line.
pub const MAX_LINE: usize = 8192;

// Where reading stands: octets at to end of the chunk are not used yet, and the line has so many octets so far, of which the first stand in
// its octets, as far as they go.
#[derive(Drop)]
pub struct Input {
    chunk: [u8; CHUNK],
    at: usize,
    end: usize,
    line: [u8; MAX_LINE],
    have: usize,
}

impl Input {
    pub fn new() -> Input {
        Input {
            chunk: [0; CHUNK],
            at: 0,
            end: 0,
            line: [0; MAX_LINE],
            have: 0,
        }
    }

    // The line, as far as it is kept.
    pub fn line(&self) -> &[u8] {
        front(&self.line, self.have)
    }

    // Takes the octets up to a line feed, or up to the end of the chunk, and says whether the line has ended.
    fn take(&mut self) -> bool {
        let rest = from(front(&self.chunk, self.end), self.at);
        let k = run(Class::Line, rest);
        let ended = k < rest.len();
        octets::put(&mut self.line, self.have, front(rest, k));
        self.have = self.have.saturating_add(k);
        self.at = if ended {
            self.at.saturating_add(k + 1)
        } else {
            self.end
        };
        ended
    }

    // Reads another chunk, and says whether there is one.
    fn read(&mut self, file: &mut impl Read) -> io::Result<bool> {
        self.end = file.read(&mut self.chunk)?;
        self.at = 0;
        Ok(self.end != 0)
    }

    // The length of the next line. A line ends, but nothing says so: the turns are counted up to a number that no line uses up. `rt.forever()` takes
    // Wait, which HANDLES does not allow.
    pub fn next_line(&mut self, file: &mut impl Read) -> io::Result<Option<usize>> {
        self.have = 0;
        for _ in 0..u64::MAX {
            if self.at < self.end {
                if self.take() {
                    return Ok(Some(self.have));
                }
            } else if !self.read(file)? {
                return Ok((self.have != 0).then_some(self.have));
            }
        }
        Ok(None)
    }
}
