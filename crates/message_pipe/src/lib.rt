//! Whole messages over a stream of octets: each goes behind its length, and a reader gets whole messages in order, or none.
//! [`LineOutside`] makes messages of the lines of files, and lines of the messages that readers get, so that whatever runs over
//! an outside sends lines as wholes. [`FramedOutside`] only reads so.
#![tactic(auto)]

mod framed_outside;
mod framing;
mod laws;
mod line_outside;
mod line_port;
mod lines;
mod messages;
mod showing;
mod trace;

pub use framed_outside::FramedOutside;
pub use framing::frame;
pub use laws::{
    frames_are_read_again, messages_are_put_one_by_one, messages_come_whole, ports_show_lines,
};
pub use line_outside::{LineOutside, Naming};
pub use messages::Messages;
