// The exported codec: encode and decode on numbers and octet slices.
#![tactic(auto)]

ghost use Rattle.std.specs.Prelude.{◌≡◌};
ghost use Rattle.std.proofs.lemmas.List.Edits.{sets};
ghost use Rattle.tsar.specs.Writing.{encode_of};
ghost use Rattle.codec_c.specs.Calls.{encode_call, encoded_call, encode_call_of, decode_call, decode_call_of, part_image};

use crate::codes::{DONE, MISSPELLED, OUTPUT_TOO_SHORT, SHORT, error_code};
use image::numbers;
use image::segments::{HEAD_OCTETS, SEGMENT_OCTETS, get_segment, put_head};
use tsar::decode::decode_segment;
use tsar::encode::EncodeError;
use tsar::{Segment, SegmentHead};

pub mod codes;

const WRITTEN_OCTETS: usize = 8;

// DECODED, and PART.
pub const PART_OCTETS: usize = 31;

// Encodes a segment, and says how many octets were written.
fn encode_into(
    segment: Segment,
    data: &[u8],
    version: u8,
    output: &mut [u8],
    answer: &mut [u8],
) -> u32
    ensures { encode_call result output.new answer.new ≡ encoded_call (encode_of version segment «data».now output.old) answer.old }
{
    match segment.encode(data, version, output) {
        Ok(n) => {
            numbers::put(answer, 0, n as u64);
            DONE
        }
        Err(EncodeError::Codec(e)) => error_code(e),
        Err(EncodeError::Output) => OUTPUT_TOO_SHORT,
    }
}

// Writes the segment that SEGMENT spells, with its data, into output. Answers WRITTEN.
#[tactic(auto, using(crate::proofs::Refusing::segment_short))]
pub fn catkhize_encode(
    segment: &[u8],
    data: &[u8],
    version: u8,
    output: &mut [u8],
    answer: &mut [u8],
) -> u32
    ensures { encode_call result output.new answer.new ≡ encode_call_of segment.now «data».now version output.old answer.old }
{
    if segment.len() < SEGMENT_OCTETS {
        return SHORT;
    }
    if answer.len() < WRITTEN_OCTETS {
        return SHORT;
    }
    let Some(segment) = get_segment(segment) else {
        return MISSPELLED;
    };
    encode_into(segment, data, version, output, answer)
}

// A head and a number behind it, put at the front of octets, as far as they go.
pub fn put_part(answer: &mut [u8], head: SegmentHead, number: usize)
    ensures { answer.new ≡ sets answer.old 0 (part_image head number) }
{
    let mut octets = [0u8; PART_OCTETS];
    put_head(&mut octets, 0, head);
    numbers::put(&mut octets, HEAD_OCTETS, number as u64);
    octets::put(answer, 0, &octets);
}

// Reads a segment of the octets. Answers DECODED.
pub fn catkhize_decode(octets: &[u8], version: u8, answer: &mut [u8]) -> u32
    ensures { decode_call result answer.new ≡ decode_call_of octets.now version answer.old }
{
    if answer.len() < PART_OCTETS {
        return SHORT;
    }
    match decode_segment(octets, version) {
        Err(e) => error_code(e),
        Ok(d) => {
            put_part(answer, d.head, d.unparsed_octets);
            DONE
        }
    }
}
