//! Where in a file of chunks the next byte is.

use crate::error::WavError;
use crate::format::Format;

/// Where in a file of chunks the next byte is. Some bytes before it are kept.
#[derive(Clone, Copy)]
pub enum Place {
    /// In the 12 bytes before the first chunk; those that came are kept.
    Opening,
    /// After `skip` more bytes in a chunk's head, of which the bytes that came are kept; after a format or not.
    Head { format: Option<Format>, skip: usize },
    /// In the body of the format chunk, of which so many bytes are missing, and then none or one of padding. The first 40
    /// are kept.
    FormatBody { missing: usize, pad: usize },
    /// In the body of the first data chunk, of which so many bytes are missing, or after it.
    DataBody { format: Format, missing: usize },
    /// Nowhere: the file is refused.
    Refused(WavError),
}
