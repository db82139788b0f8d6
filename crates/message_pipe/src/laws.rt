//! What holds of the frames of messages, and of ports that show them, by the definitions alone.

ghost use Rattle.message_pipe.specs.OnePut.{MessagesArePutOneByOne};
ghost use Rattle.message_pipe.specs.Uses.{FramesAreReadAgain, MessagesComeWhole};
ghost use Rattle.message_pipe.specs.LinesShown.{WholePortsShowAllLines, PortsShowFirstLines, RefusedPortsShowPrefixes};

/// A law: octets that begin with the frame of a message begin with a whole frame, whose message is this one; what stands behind it
/// stays.
pub fn frames_are_read_again()
    ensures { FramesAreReadAgain }
{}

/// A law: where the frames of some messages, and any octets behind them, are fed in whatever pieces, and messages are asked for at
/// any moments, the messages given first are these, whole and in order; and all of them once no whole frame is held.
pub fn messages_come_whole()
    ensures { MessagesComeWhole }
{}

/// A law: a port for which the frames of the lines of a content were put, of fewer than 2^32 octets, shows exactly these lines;
/// where only a prefix of the frames was put, the first lines, each whole; and where a line was refused, a prefix of the lines.
pub fn ports_show_lines()
    ensures whole { WholePortsShowAllLines }
    ensures first { PortsShowFirstLines }
    ensures refused { RefusedPortsShowPrefixes }
{}

/// A law: where no call on a `LineOutside` failed, none failed on the outside below, and what was put there for a reader since its
/// port was bound is one put for each message that came whole, in order.
pub fn messages_are_put_one_by_one()
    ensures { MessagesArePutOneByOne }
{}
