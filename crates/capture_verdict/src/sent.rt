//! The stream that a side sent.

ghost use Rattle.std.specs.Prelude.{◌≡◌, IfOk};
ghost use Rattle.seen_streams.specs.Shows.{stream_of};
ghost use Rattle.capture_verdict.specs.Sent.{IsSent};

use seen_streams::Stream;
use std::alloc::{AllocError, Global};

/// The octets of a side's stream from place 0 to the first place that wasn't seen, or whose octet was cut off.
///
/// # Errors
///
/// Want of memory.
pub fn sent_by(alloc: Global, stream: &Stream<'_>) -> Result<Vec<u8>, AllocError>
    ensures { IfOk result (λ octets. IsSent (stream_of stream.now).octet octets.items) }
{
    let mut octets = Vec::new(alloc);
    loop {
        let part = stream.octets_from(octets.len() as u64);
        if part.is_empty() {
            return Ok(octets);
        }
        octets.extend_from_slice(part)?;
    }
}
