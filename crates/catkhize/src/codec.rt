// Segments.
ghost use Rattle.std.specs.Prelude.{◌≡◌};
ghost use Rattle.codec_c.specs.Calls.{encode_call, encode_call_of, decode_call, decode_call_of};

// Writes the segment that SEGMENT spells, with its data, into output. Answers WRITTEN.
#[unsafe(no_mangle)]
pub extern "C" fn catkhize_encode(
    segment: &[u8],
    data: &[u8],
    version: u8,
    output: &mut [u8],
    answer: &mut [u8],
) -> u32
    ensures { encode_call result output.new answer.new ≡ encode_call_of segment.now «data».now version output.old answer.old }
{
    codec_c::catkhize_encode(segment, data, version, output, answer)
}

// Reads a segment of the octets. Answers DECODED.
#[unsafe(no_mangle)]
pub extern "C" fn catkhize_decode(octets: &[u8], version: u8, answer: &mut [u8]) -> u32
    ensures { decode_call result answer.new ≡ decode_call_of octets.now version answer.old }
{
    codec_c::catkhize_decode(octets, version, answer)
}
