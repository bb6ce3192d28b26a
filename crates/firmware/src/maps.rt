// The figures of maps that try_new builds, as a table: document 02, 2026-01. It is given marks past a map's entries too: they are no
// entries.
use response::AcknowledgmentMap;
use std::io;
use words::Words;

// All marks of a word; all but its first; all but its last.
const ALL: u64 = u64::MAX;

const NOT_FIRST: u64 = ALL - 1;

const NOT_LAST: u64 = ALL / 2;

// The table: which slots are marked, as words, and the number of entries.
const LINES: [(&str, [u64; 4], u16); 20] = [
    ("all marked", [ALL; 4], 256),
    ("all but 0", [NOT_FIRST, ALL, ALL, ALL], 256),
    ("all but 63", [NOT_LAST, ALL, ALL, ALL], 256),
    ("all but 64", [ALL, NOT_FIRST, ALL, ALL], 256),
    ("all but 127", [ALL, NOT_LAST, ALL, ALL], 256),
    ("all but 128", [ALL, ALL, NOT_FIRST, ALL], 256),
    ("all but 191", [ALL, ALL, NOT_LAST, ALL], 256),
    ("all but 192", [ALL, ALL, ALL, NOT_FIRST], 256),
    ("all but 255", [ALL, ALL, ALL, NOT_LAST], 256),
    ("all but 127 and 192", [ALL, NOT_LAST, ALL, NOT_FIRST], 256),
    ("none marked", [0; 4], 256),
    ("none marked", [0; 4], 1),
    ("all marked", [ALL; 4], 1),
    ("all but 0", [NOT_FIRST, ALL, ALL, ALL], 1),
    ("all but 64", [ALL, NOT_FIRST, ALL, ALL], 64),
    ("all but 64", [ALL, NOT_FIRST, ALL, ALL], 65),
    ("only 192 to 255", [0, 0, 0, ALL], 192),
    ("only 192 to 255", [0, 0, 0, ALL], 200),
    ("all marked", [ALL; 4], 0),
    ("all marked", [ALL; 4], 257),
];

// A line: which slots are marked, the number of entries, how many of them are missing, and the first.
fn line(rt: &impl Print, marked: &str, words: [u64; 4], entries: u16) -> io::Result<()> {
    print!(rt; "  {marked}, map of {entries}: ")?;
    match AcknowledgmentMap::try_new(Words { words }, entries) {
        Err(_) => println!(rt; "refused"),
        Ok(map) => {
            println!(rt;
                "missing {}, first {}",
                map.missing.count, map.missing.first
            )
        }
    }
}

pub fn table(rt: &impl Print) -> io::Result<()> {
    println!(rt; "maps, how many of their entries are missing, and the first")?;
    for (marked, words, entries) in LINES {
        line(rt, marked, words, entries)?;
    }
    Ok(())
}
