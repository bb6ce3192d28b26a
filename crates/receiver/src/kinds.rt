// Questions about kinds, services and windows.
ghost use Rattle.std.specs.Prelude.{◌≡◌};
ghost use Rattle.tsar.specs.Kinds.{is_begin, is_continue, is_end, services_or_default, compresses as compresses_of, selects_crc, prohibited as prohibited_of, same_kind};

use tsar::{AcknowledgmentWindow, Compression, CrcStatus, OptionalServices, SegmentKind};

pub fn is_begin(kind: SegmentKind) -> bool
    ensures { result ≡ is_begin kind }
{
    matches!(kind, SegmentKind::Begin { .. })
}

pub fn is_continue(kind: SegmentKind) -> bool
    ensures { result ≡ is_continue kind }
{
    matches!(kind, SegmentKind::Continue { .. })
}

pub fn is_end(kind: SegmentKind) -> bool
    ensures { result ≡ is_end kind }
{
    matches!(kind, SegmentKind::End { .. })
}

// Absent services mean no compression, Prohibited, no CRC.
pub fn services_or_default(services: Option<OptionalServices>) -> OptionalServices
    ensures { result ≡ services_or_default services }
{
    services.unwrap_or_default()
}

pub fn compresses(compression: Compression) -> bool
    ensures { result ≡ compresses_of compression }
{
    compression != Compression::None
}

pub fn selects_crc(crc_status: CrcStatus) -> bool
    ensures { result ≡ selects_crc crc_status }
{
    crc_status != CrcStatus::None
}

pub fn prohibited(window: AcknowledgmentWindow) -> bool
    ensures { result ≡ prohibited_of window }
{
    window == AcknowledgmentWindow::Prohibited
}

// The same kind, with the same parameters.
pub fn same_kind(a: SegmentKind, b: SegmentKind) -> bool
    ensures { result ≡ same_kind a b }
{
    a == b
}
