//! What the options of a SYN ask for, and what those of a SYN/ACK answer.

ghost use Rattle.std.specs.Prelude.{◌≡◌, false};
ghost use Rattle.mptcp_options.specs.Meaning.{option_meaning};
ghost use Rattle.segment_wire.specs.Options.{option_octets};
ghost use Rattle.segment_wire.specs.Reading.{segment_of};
ghost use Rattle.seen_connections.specs.Asked.{asked_by, first_asked, answered_by, first_answer};

use crate::flow::Opening;
use mptcp_options::{CapableKeys, JoinForm, MpOption, Read, read};
use segment_wire::SegmentRef;

/// What a SYN/ACK answers to a join: the token and the nonce of the SYN, and its own nonce and HMAC.
#[derive(Clone, Copy)]
pub struct JoinAnswer {
    pub token: u32,
    pub nonce: u32,
    pub answer: u32,
    pub hmac: u64,
}

/// What a SYN/ACK answers to what the SYN asks for.
#[derive(Clone, Copy)]
pub enum Answer {
    /// B's key, and whether checksums are used, as flag A of the SYN or of the SYN/ACK says.
    Key { key: u64, checksums: bool },
    /// To a join.
    Join { join: JoinAnswer },
}

/// What the options of a SYN ask for, by the first that asks.
pub fn asked_in(segment: &SegmentRef<'_>) -> Option<Opening>
    ensures { result ≡ first_asked (option_octets (segment_of segment.now).options) }
{
    for option in segment.options() {
        if let Some(opening) = asked_by(option) {
            return Some(opening);
        }
    }
    None
}

// What an option asks for.
fn asked_by(option: &[u8]) -> Option<Opening>
    ensures { result ≡ asked_by (option_meaning option.now false) }
{
    match read(option, false) {
        Read::Known(
            MpOption::Capable {
                flag_a,
                keys: CapableKeys::NoKey,
                ..
            },
        ) => Some(Opening::Capable { checksums: flag_a }),
        Read::Known(
            MpOption::Join {
                form: JoinForm::Syn { token, nonce, .. },
            },
        ) => Some(Opening::Join { token, nonce }),
        _ => None,
    }
}

/// What the options of a SYN/ACK answer to what the SYN asks for, by the first that answers.
pub fn answer_in(opening: &Opening, segment: &SegmentRef<'_>) -> Option<Answer>
    ensures { result ≡ first_answer opening.now (option_octets (segment_of segment.now).options) }
{
    for option in segment.options() {
        if let Some(answer) = answered_by(opening, option) {
            return Some(answer);
        }
    }
    None
}

// What an option answers.
fn answered_by(opening: &Opening, option: &[u8]) -> Option<Answer>
    ensures { result ≡ answered_by opening.now (option_meaning option.now false) }
{
    match (*opening, read(option, false)) {
        (
            Opening::Capable { checksums },
            Read::Known(
                MpOption::Capable {
                    flag_a,
                    keys: CapableKeys::Sender { sender },
                    ..
                },
            ),
        ) => Some(Answer::Key {
            key: sender,
            checksums: checksums || flag_a,
        }),
        (
            Opening::Join { token, nonce },
            Read::Known(
                MpOption::Join {
                    form: JoinForm::Answer {
                        hmac,
                        nonce: answer,
                        ..
                    },
                },
            ),
        ) => Some(Answer::Join {
            join: JoinAnswer {
                token,
                nonce,
                answer,
                hmac,
            },
        }),
        _ => None,
    }
}
