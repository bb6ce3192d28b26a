// The entry of the train that C and Rust link: include/catkhize.h, docs/EXPORTS.md. It hands its numbers and octets on to the call of the same name in
// train_c and has that call's contract. It is a crate of its own, since a static library holds the entries of its own crate alone and train_c is a
// library for other crates; and not in crates/catkhize, so that the train has an object of its own (tools/staticlib).
#![tactic(auto)]

ghost use Rattle.train_c.specs.Calls.{call, Met};

// Takes the segments that stand one after another in octets, each two octets of lengths being the number of octets of one. Answers TRAIN.
#[unsafe(no_mangle)]
pub extern "C" fn catkhize_receiver_train(
    record: &mut [u8],
    store: &mut [u8],
    output: &mut [u8],
    peer_kind: u8,
    peer_width: u8,
    peer_value: u64,
    protocol: u8,
    protocol_octet: u8,
    octets: &[u8],
    lengths: &[u8],
    reading: u64,
    answer: &mut [u8],
) -> u32
    ensures { Met (record { image = «record».old; store = store.old; output = output.old; peer = record { kind = peer_kind; width = peer_width; value = peer_value }; protocol = protocol; octet = protocol_octet; octets = octets.now; lengths = lengths.now; reading = reading; answer = answer.old }) (call result «record».new store.new output.new answer.new) }
{
    train_c::catkhize_receiver_train(
        record,
        store,
        output,
        peer_kind,
        peer_width,
        peer_value,
        protocol,
        protocol_octet,
        octets,
        lengths,
        reading,
        answer,
    )
}
