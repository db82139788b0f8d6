//! The lines of a content, as messages.

ghost use Rattle.std.specs.Prelude.{◌≡◌, ◌+◌, ◌^◌, ◌<◌, ◌≤◌, ◌↔◌, ◌≢◌, length, vec_len, IfOk, IsTrue};
ghost use Rattle.message_pipe.specs.Lines.{framed};

use crate::framing::push_frame;
use octet_text::split_line;
use outside_kit::LoadFault;
use std::alloc::{AllocError, Global};

/// Whether the frames of the lines of a content have at most so many octets.
pub(crate) fn has_room(content: &[u8], limit: u64) -> bool
    ensures { IsTrue result ↔ (length (framed content.now) ≤ limit) }
{
    let mut rest = content;
    let mut room = limit;
    while !rest.is_empty() {
        let (line, behind) = split_line(rest);
        if room < 4 || room - 4 < line.len() as u64 {
            return false;
        }
        room -= 4 + line.len() as u64;
        rest = behind;
    }
    true
}

/// The frames of the lines of a content.
pub(crate) fn framed(alloc: Global, content: &[u8]) -> Result<Vec<u8>, AllocError>
    requires { length content.now < 2 ^ 32 }
    ensures { IfOk result (λ frames. frames.items ≡ framed content.now) }
{
    let mut frames = Vec::new(alloc);
    let mut rest = content;
    while !rest.is_empty() {
        let (line, behind) = split_line(rest);
        push_frame(&mut frames, line)?;
        rest = behind;
    }
    Ok(frames)
}

/// The frames of the lines of a content, where they are within the limit.
pub(crate) fn framed_within(alloc: Global, content: &[u8], limit: u64) -> Result<Vec<u8>, LoadFault>
    requires { length content.now < 2 ^ 32 }
    ensures whole { IfOk result (λ frames. frames.items ≡ framed content.now) }
    ensures within { IfOk result (λ frames. vec_len frames ≤ limit) }
    ensures too_long { result ≡ Err LoadFault.TooLong → limit < length (framed content.now) }
    ensures failed { result ≢ Err LoadFault.Failed }
{
    if !has_room(content, limit) {
        return Err(LoadFault::TooLong);
    }
    match framed(alloc, content) {
        Ok(frames) => Ok(frames),
        Err(_) => Err(LoadFault::Memory),
    }
}
