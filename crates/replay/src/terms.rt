// Peer and protocol. The C interface takes the five one by one.
use crate::number::{be8, be64};

const WIDTH: usize = 1;

const VALUE: usize = 2;

pub const PROTOCOL: usize = 10;

const OCTET: usize = 11;

// The original waits as profile 1 does.
pub const PROFILE_1: u8 = 1;

#[derive(Clone, Copy)]
pub struct Terms {
    pub kind: u8,
    pub width: u8,
    pub value: u64,
    pub protocol: u8,
    pub octet: u8,
}

// The peer and the protocol that octets begin with.
pub fn terms_at(s: &[u8]) -> Terms {
    Terms {
        kind: be8(s, 0),
        width: be8(s, WIDTH),
        value: be64(s, VALUE),
        protocol: be8(s, PROTOCOL),
        octet: be8(s, OCTET),
    }
}
