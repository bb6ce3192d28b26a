// receiver.rec: try_new opens a list, and the calls after it are made on the record, the store and the output that the call before left.
use crate::case::{LONG, Lent};
use crate::number::{be8, be16, be64, from};
use crate::pattern::{FILL, patched};
use crate::terms::{PROFILE_1, terms_at};
use receiver_c::{
    catkhize_receiver_advance, catkhize_receiver_cancel, catkhize_receiver_new,
    catkhize_receiver_receive,
};

#[derive(Clone, Copy)]
pub enum Call {
    TryNew,
    Receive,
    Advance,
    Cancel,
}

// Op 20's input, behind peer and protocol.
const TRANSACTION: usize = 12;

const VERSION: usize = 13;

const MAXIMUM: usize = 14;

const MADE_AT: usize = 22;

// Op 21's input, likewise.
pub const HEAD: usize = 12;

pub const DATA_LENGTH: usize = 27;

const SEED: usize = 29;

const PATCH: usize = 30;

const PATCH_XOR: usize = 32;

const UNPARSED: usize = 33;

const RECEIVED_AT: usize = 35;

pub const MAX_DATA: usize = 300;

fn made(record: &mut [u8], input: &[u8]) -> u32 {
    let t = terms_at(input);
    catkhize_receiver_new(
        record,
        t.kind,
        t.width,
        t.value,
        t.protocol,
        t.octet,
        be8(input, TRANSACTION),
        be8(input, VERSION),
        PROFILE_1,
        be64(input, MAXIMUM),
        be64(input, MADE_AT),
    )
}

// A list starts: every octet of the store and of the output is FILL, and there is no record.
fn make(input: &[u8], lent: &mut Lent) -> u32 {
    lent.store = [FILL; LONG];
    lent.output = [FILL; LONG];
    lent.record[0] = 0;
    made(&mut lent.record, input)
}

fn receive(input: &[u8], lent: &mut Lent) -> u32 {
    let t = terms_at(input);
    let mut octets = [0u8; MAX_DATA];
    let n = (be16(input, DATA_LENGTH) as usize).min(MAX_DATA);
    let data = &mut octets[..n];
    patched(
        data,
        be8(input, SEED),
        be16(input, PATCH) as usize,
        be8(input, PATCH_XOR),
    );
    catkhize_receiver_receive(
        &mut lent.record,
        &mut lent.store,
        &mut lent.output,
        t.kind,
        t.width,
        t.value,
        t.protocol,
        t.octet,
        from(input, HEAD),
        data,
        be16(input, UNPARSED) as u64,
        be64(input, RECEIVED_AT),
        &mut lent.answer,
    )
}

impl Call {
    // The call of a case of receiver.rec.
    pub fn make(self, input: &[u8], lent: &mut Lent) -> u32 {
        match self {
            Call::TryNew => make(input, lent),
            Call::Receive => receive(input, lent),
            Call::Advance => catkhize_receiver_advance(
                &mut lent.record,
                &mut lent.store,
                be64(input, 0),
                &mut lent.answer,
            ),
            Call::Cancel => {
                catkhize_receiver_cancel(&mut lent.record, &mut lent.store, be64(input, 0))
            }
        }
    }
}
