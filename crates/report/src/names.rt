// The names of statuses, states, kinds and windows in the order of their numbers in the layouts of docs/EXPORTS.md.

pub const STATUSES: [&str; 14] = [
    "Continuing",
    "InterSegmentTimeout",
    "Aborted",
    "CrcSelectionUnsupported",
    "CompressionUnsupported",
    "EncryptionUnsupported",
    "AcknowledgmentWindowUnsupported",
    "ProtocolUnsupported",
    "MessageLengthError",
    "MessageTooLong",
    "Received",
    "DuplicateSizeMismatch",
    "CrcError",
    "MultipleServicesUnsupported",
];

pub const STATES: [&str; 6] = [
    "AwaitingBegin",
    "Receiving",
    "Complete",
    "Failed",
    "Expired",
    "Canceled",
];

pub const KINDS: [&str; 3] = ["Begin", "Continue", "End"];

pub const WINDOWS: [&str; 6] = [
    "Prohibited",
    "Every4",
    "Every8",
    "Every16",
    "Last",
    "Exceptions",
];

// The name of a number, where it has one.
pub(crate) fn nth(names: &[&'static str], n: u8) -> Option<&'static str> {
    names.get(usize::from(n)).copied()
}
