// The receiver. Its record is RECEIVER; record, store and output are lent to each call.
// Each entry hands its arguments on under an exported name (the C interface), so the entries look alike.
ghost use Rattle.std.specs.Prelude.{◌≡◌, []};
ghost use Rattle.receiver_c.specs.Calls.{call, new_call, receive_call, advance_call, cancel_call, release_call};

// Makes a receiver of one transaction with a peer. The record is put into record.
#[unsafe(no_mangle)]
pub extern "C" fn catkhize_receiver_new(
    record: &mut [u8],
    peer_kind: u8,
    peer_width: u8,
    peer_value: u64,
    protocol: u8,
    protocol_octet: u8,
    transaction: u8,
    version: u8,
    profile: u8,
    maximum: u64,
    reading: u64,
) -> u32
    ensures { call result «record».new [] [] [] ≡ new_call «record».old peer_kind peer_width peer_value protocol protocol_octet transaction version profile maximum reading }
{
    receiver_c::catkhize_receiver_new(
        record,
        peer_kind,
        peer_width,
        peer_value,
        protocol,
        protocol_octet,
        transaction,
        version,
        profile,
        maximum,
        reading,
    )
}

// Takes the segment that SEGMENT spells, with its data. Answers RECEPTION.
#[unsafe(no_mangle)]
pub extern "C" fn catkhize_receiver_receive(
    record: &mut [u8],
    store: &mut [u8],
    output: &mut [u8],
    peer_kind: u8,
    peer_width: u8,
    peer_value: u64,
    protocol: u8,
    protocol_octet: u8,
    segment: &[u8],
    data: &[u8],
    unparsed: u64,
    reading: u64,
    answer: &mut [u8],
) -> u32
    ensures { call result «record».new store.new output.new answer.new ≡ receive_call «record».old store.old output.old peer_kind peer_width peer_value protocol protocol_octet segment.now «data».now unparsed reading answer.old }
{
    receiver_c::catkhize_receiver_receive(
        record,
        store,
        output,
        peer_kind,
        peer_width,
        peer_value,
        protocol,
        protocol_octet,
        segment,
        data,
        unparsed,
        reading,
        answer,
    )
}

// Takes a reading of the clock, at which a deadline may be due. Answers REPLY.
#[unsafe(no_mangle)]
pub extern "C" fn catkhize_receiver_advance(
    record: &mut [u8],
    store: &mut [u8],
    reading: u64,
    answer: &mut [u8],
) -> u32
    ensures { call result «record».new store.new [] answer.new ≡ advance_call «record».old store.old reading answer.old }
{
    receiver_c::catkhize_receiver_advance(record, store, reading, answer)
}

// Cancels the reception.
#[unsafe(no_mangle)]
pub extern "C" fn catkhize_receiver_cancel(record: &mut [u8], store: &mut [u8], reading: u64) -> u32
    ensures { call result «record».new store.new [] [] ≡ cancel_call «record».old store.old reading }
{
    receiver_c::catkhize_receiver_cancel(record, store, reading)
}

// Releases the store of a complete reception.
#[unsafe(no_mangle)]
pub extern "C" fn catkhize_receiver_release(
    record: &mut [u8],
    store: &mut [u8],
    reading: u64,
) -> u32
    ensures { call result «record».new store.new [] [] ≡ release_call «record».old store.old reading }
{
    receiver_c::catkhize_receiver_release(record, store, reading)
}
