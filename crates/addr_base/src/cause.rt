// Why a bundle's fetch gave no image: the fetch's own answer, or the first property that the bytes don't have.
use crate::ids::Digest;

/// Which reader refused the bytes of a bundle.
#[derive(Clone, Copy, Debug, PartialEq, Eq)]
pub enum Layer {
    UnityFs,
    Cab,
}

/// Why a fetch of a bundle failed. Sizes are in bytes.
#[derive(Clone, Copy, Debug, PartialEq, Eq)]
pub enum Cause {
    /// The fetcher's count of faults rose to this number.
    Fault(u64),
    Missing,
    /// The server's status.
    Refused(u16),
    /// The length, which is above the limit that the fetch was given.
    TooLong(u64),
    BadSize { want: u64, got: u64 },
    BadDigest { want: Digest, got: Digest },
    /// The number of the reader's fault.
    BadImage { layer: Layer, number: u8 },
    NoMemory,
}
