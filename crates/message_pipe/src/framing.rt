//! The frame of a message: its length in four octets, the highest first, and then the message.

ghost use Rattle.std.specs.Prelude.{◌≡◌, ◌+◌, ◌^◌, ◌<◌, ◌≤◌, ◌++◌, length, drop, option_map, IfSome, OnOk, OnErr};
ghost use Rattle.message_pipe.specs.Frames.{frame_of, told_length, first_message, behind_first};

use octet_text::Text;
use std::alloc::{AllocError, Global};

/// Puts the frame of a message at the end of a vector.
pub(crate) fn push_frame(out: &mut Vec<u8>, message: &[u8]) -> Result<(), AllocError>
    requires { length message.now < 2 ^ 32 }
    ensures { OnOk result (out.new.items ≡ out.old.items ++ frame_of message.now) }
{
    let length = message.len() as u32;
    out.extend_from_slice(&length.to_be_bytes())?;
    out.extend_from_slice(message)
}

/// Puts the frame of a message at the end of a text. Where there is no memory for it, the text is as it was.
pub fn frame(alloc: Global, message: &[u8], out: &mut Text) -> Result<(), AllocError>
    requires { length message.now < 2 ^ 32 }
    ensures ok { OnOk result (out.new ≡ out.old ++ frame_of message.now) }
    ensures err { OnErr result (out.new ≡ out.old) }
{
    let mut framed = Vec::new(alloc);
    push_frame(&mut framed, message)?;
    out.append(&framed)
}

/// The length that the first four octets tell.
fn told_length(octets: &[u8]) -> u32
    requires { 4 ≤ length octets.now }
    ensures { result ≡ told_length octets.now }
{
    u32::from_be_bytes(*octets.first_chunk().unwrap())
}

/// The message of the frame that the octets begin with, where all of it is there.
pub(crate) fn first_message(octets: &[u8]) -> Option<&[u8]>
    ensures given { option_map (λ message. message.now) result ≡ first_message octets.now }
    ensures whole { IfSome result
        (λ message. octets.now ≡ frame_of message.now ++ drop (4 + length message.now) octets.now) }
    ensures short { IfSome result (λ message. length message.now < 2 ^ 32) }
    ensures behind { IfSome result
        (λ message. behind_first octets.now ≡ drop (4 + length message.now) octets.now) }
{
    if octets.len() < 4 {
        return None;
    }
    let length = told_length(octets) as usize;
    let behind = &octets[4..];
    if behind.len() < length {
        return None;
    }
    Some(&behind[..length])
}
