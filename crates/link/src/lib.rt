// Who a segment is for: the peer and the protocol, which the source takes from link/rach.rs and l3/relay.rs.
#![tactic(auto)]

ghost use Rattle.std.specs.Prelude.{◌≡◌};
ghost use Rattle.link.specs.Peer.{identity_refused, same_identity, protocol_served, same_protocol};

pub mod profiles;

const MAX_WIDTH: u8 = 63;

// Both top bits set: an octet that is at least this.
const SEGMENTED_CARRIER_BITS: u8 = 0xc0;

// A peer: kind, width and value.
#[derive(Clone, Copy, Debug, PartialEq, Eq)]
pub struct MobileIdentity {
    pub kind: u8,
    pub width: u8,
    pub value: u64,
}

// A protocol, each with an octet.
#[derive(Clone, Copy, Debug, PartialEq, Eq)]
pub enum HigherLayerProtocol {
    Segmented(u8),
    CarrierSpecific(u8),
    Other(u8),
}

impl MobileIdentity {
    // Refused (30): value 0, value at or past 2 to the width, or width above 63.
    pub fn refused(self) -> bool
        ensures { result ≡ identity_refused self }
    {
        MAX_WIDTH < self.width || self.value == 0 || 1u64 << self.width <= self.value
    }

    pub fn same(self, other: MobileIdentity) -> bool
        ensures { result ≡ same_identity self other }
    {
        self == other
    }
}

impl HigherLayerProtocol {
    // Served: Segmented, or CarrierSpecific with both top bits set.
    pub fn served(self) -> bool
        ensures { result ≡ protocol_served self }
    {
        match self {
            HigherLayerProtocol::Segmented(_) => true,
            HigherLayerProtocol::CarrierSpecific(octet) => SEGMENTED_CARRIER_BITS <= octet,
            HigherLayerProtocol::Other(_) => false,
        }
    }

    pub fn same(self, other: HigherLayerProtocol) -> bool
        ensures { result ≡ same_protocol self other }
    {
        self == other
    }
}
