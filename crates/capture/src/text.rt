// Parts of lent octets, and the runs of characters that a line is cut by.
ghost use Rattle.std.specs.Prelude.{◌≡◌, ◌≤◌, length, take, drop};
ghost use Rattle.capture.specs.Text.{blank, in_class, leading, trim, word_end, word as word_of, after as after_of, word_at, unmarked as unmarked_of};

// The mark of byte order that some programs write before a text.
const MARK: [u8; 3] = *b"\xEF\xBB\xBF";

// What a run is made of: the characters of a line, those before a comment, blanks, those of a word, decimal digits.
#[derive(Clone, Copy)]
pub enum Class {
    Line,
    Text,
    Blank,
    Word,
    Digit,
}

impl Class {
    fn has(self, x: u8) -> bool
        ensures { result ≡ in_class self x }
    {
        match self {
            Class::Line => x != b'\n',
            Class::Text => x != b'#',
            Class::Blank => is_blank(x),
            Class::Word => !is_blank(x),
            Class::Digit => x.is_ascii_digit(),
        }
    }
}

// The octets from at on.
pub fn from(s: &[u8], at: usize) -> &[u8]
    ensures { result.now ≡ drop at s.now }
{
    &s[at.min(s.len())..]
}

// The first n octets.
pub fn front(s: &[u8], n: usize) -> &[u8]
    ensures { result.now ≡ take n s.now }
{
    &s[..n.min(s.len())]
}

pub fn is_blank(x: u8) -> bool
    ensures { result ≡ blank x }
{
    matches!(x, b' ' | b'\t' | b'\r')
}

// How many characters of a class stand at the start.
pub fn run(class: Class, s: &[u8]) -> usize
    ensures value { result ≡ leading (in_class class) s.now }
    ensures within { result ≤ length s.now }
{
    s.iter().position(|x| !class.has(*x)).unwrap_or(s.len())
}

// Without the blanks at the start.
fn trimmed(s: &[u8]) -> &[u8]
    ensures { result.now ≡ trim s.now }
{
    from(s, run(Class::Blank, s))
}

// The first word; none where there are only blanks.
pub fn word(s: &[u8]) -> &[u8]
    ensures { result.now ≡ word_of s.now }
{
    let t = trimmed(s);
    front(t, run(Class::Word, t))
}

// The number of characters up to the end of the first word.
pub fn word_end(s: &[u8]) -> usize
    ensures { result ≡ word_end s.now }
{
    let t = trimmed(s);
    run(Class::Blank, s) + run(Class::Word, t)
}

// What follows the first word.
#[tactic(auto, unfolding(crate::specs::Text::after))]
pub fn after(s: &[u8]) -> &[u8]
    ensures { result.now ≡ after_of s.now }
{
    from(s, word_end(s))
}

// Word i, counted from 0.
#[tactic(auto, unfolding(crate::specs::Text::word_at))]
pub fn word_at(s: &[u8], i: usize) -> &[u8]
    ensures { result.now ≡ word_at s.now i }
{
    let mut t = s;
    for _ in 0..i {
        t = after(t);
    }
    word(t)
}

// A text without the mark of byte order that may stand before it.
pub fn unmarked(s: &[u8]) -> &[u8]
    ensures { result.now ≡ unmarked_of s.now }
{
    if octets::same(front(s, MARK.len()), &MARK) {
        return from(s, MARK.len());
    }
    s
}
