// How far a comparison of lent octets looks, as a table: document 02, 2026-03.
use octets::{compare, put};
use std::io;

// The most octets that a segment's data has.
const OCTETS: usize = 255;

// The table: n octets against m that are others from a place on, or nowhere.
const LINES: [(u8, u8, Option<u8>); 18] = [
    (0, 0, None),
    (1, 1, None),
    (1, 1, Some(0)),
    (254, 254, None),
    (254, 254, Some(253)),
    (255, 255, None),
    (255, 255, Some(0)),
    (255, 255, Some(1)),
    (255, 255, Some(100)),
    (255, 255, Some(254)),
    (254, 255, None),
    (255, 254, None),
    (254, 255, Some(0)),
    (255, 254, Some(0)),
    (0, 1, None),
    (1, 0, None),
    (0, 255, None),
    (255, 0, None),
];

// Octets, and where a place is given, others from there on.
fn octets_with(place: Option<u8>) -> [u8; OCTETS] {
    let mut octets = [0x46u8; OCTETS];
    put(&mut octets, 0, b"abcdefghijklmnopqrstuvwxyz");
    if let Some(place) = place {
        octets[place as usize..].fill(0x50);
    }
    octets
}

// A line: the octets, whether they were found the same, and how many were looked at.
fn line(rt: &impl Print, n: u8, m: u8, place: Option<u8>) -> io::Result<()> {
    print!(rt; "  {n} and {m}")?;
    if let Some(place) = place {
        print!(rt; ", others from {place} on")?;
    }
    let left = octets_with(None);
    let right = octets_with(place);
    let found = compare(&left[..n as usize], &right[..m as usize]);
    let same = if found.same {
        "the same"
    } else {
        "not the same"
    };
    println!(rt; ": {same}, looked at {}", found.looked)
}

pub fn table(rt: &impl Print) -> io::Result<()> {
    println!(rt; "comparisons, and how many octets were looked at")?;
    for (n, m, place) in LINES {
        line(rt, n, m, place)?;
    }
    Ok(())
}
