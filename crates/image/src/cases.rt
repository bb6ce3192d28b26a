// The number of each case, and the case of each number. A number past the last gives the first case, which the strict test of an image
// then refuses.
// The numbers are the layout's (the C interface), and an impl of From for a type of another crate cannot stand here.
ghost use Rattle.std.specs.Prelude.{◌≡◌};
ghost use Rattle.image.specs.Cases.{compression_of, window_of, crc_status_of, protocol_number, protocol_octet, protocol_of, status_of};

use link::HigherLayerProtocol;
use response::Status;
use tsar::{AcknowledgmentWindow, Compression, CrcStatus};

#[tactic(auto, using(crate::proofs::FirstCase::compression_first))]
pub fn compression_of(n: u8) -> Compression
    ensures { result ≡ compression_of n }
{
    Compression::try_from(n).unwrap_or(Compression::None)
}

#[tactic(auto, using(crate::proofs::FirstCase::window_first))]
pub fn window_of(n: u8) -> AcknowledgmentWindow
    ensures { result ≡ window_of n }
{
    AcknowledgmentWindow::try_from(n).unwrap_or(AcknowledgmentWindow::Prohibited)
}

#[tactic(auto, using(crate::proofs::FirstCase::crc_status_first))]
pub fn crc_status_of(n: u8) -> CrcStatus
    ensures { result ≡ crc_status_of n }
{
    CrcStatus::try_from(n).unwrap_or(CrcStatus::None)
}

pub fn protocol_number(p: HigherLayerProtocol) -> u8
    ensures { result ≡ protocol_number p }
{
    match p {
        HigherLayerProtocol::Segmented(_) => 0,
        HigherLayerProtocol::CarrierSpecific(_) => 1,
        HigherLayerProtocol::Other(_) => 2,
    }
}

pub fn protocol_octet(p: HigherLayerProtocol) -> u8
    ensures { result ≡ protocol_octet p }
{
    match p {
        HigherLayerProtocol::Segmented(octet)
        | HigherLayerProtocol::CarrierSpecific(octet)
        | HigherLayerProtocol::Other(octet) => octet,
    }
}

pub fn protocol_of(n: u8, octet: u8) -> HigherLayerProtocol
    ensures { result ≡ protocol_of n octet }
{
    match n {
        1 => HigherLayerProtocol::CarrierSpecific(octet),
        2 => HigherLayerProtocol::Other(octet),
        _ => HigherLayerProtocol::Segmented(octet),
    }
}

pub fn status_of(n: u8) -> Status
    ensures { result ≡ status_of n }
{
    match n {
        1 => Status::InterSegmentTimeout,
        2 => Status::Aborted,
        3 => Status::CrcSelectionUnsupported,
        4 => Status::CompressionUnsupported,
        5 => Status::EncryptionUnsupported,
        6 => Status::AcknowledgmentWindowUnsupported,
        7 => Status::ProtocolUnsupported,
        8 => Status::MessageLengthError,
        9 => Status::MessageTooLong,
        10 => Status::Received,
        11 => Status::DuplicateSizeMismatch,
        12 => Status::CrcError,
        13 => Status::MultipleServicesUnsupported,
        _ => Status::Continuing,
    }
}
