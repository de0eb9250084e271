//! Why a text was not put.
use fsfs_base::HexDigest;
use thiserror::Error;

/// The most bytes that a text may have.
pub const MAX_TEXT: u64 = 1_073_741_824;

/// Why a text was not put.
#[derive(Clone, Copy, Debug, Error)]
pub enum TextError {
    /// A call of the source failed, and its count of faults rose.
    #[error("the source of the text failed")]
    SourceFault,
    /// The source had a byte more than a text may have.
    #[error("the text is too long")]
    TextTooLong,
    /// The text has another MD5 than the one that was given.
    #[error("the text has another MD5 than the one that was given")]
    Checksum {
        /// The one that was given.
        kept: HexDigest<16>,
        /// The text's.
        found: HexDigest<16>,
    },
    /// A call of the bench failed, and its count of faults rose: nothing is known of the file.
    #[error("the bench failed")]
    BenchFault,
}
