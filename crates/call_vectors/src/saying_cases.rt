//! `said NAME FIELD ..`: an option as the handshakes and the close say it.
//!
//! - `capable-syn CHECKSUMS`, `capable-syn-ack CHECKSUMS KEY`, `capable-ack CHECKSUMS SENDER RECEIVER`,
//!   `capable-data SENDER RECEIVER LENGTH CHECKSUM`;
//! - `join-syn BACKUP ID TOKEN NONCE`, `join-answer KEY_A KEY_B NONCE_A NONCE_B BACKUP ID`,
//!   `join-third KEY_A KEY_B NONCE_A NONCE_B`;
//! - `fast-close KEY`, `reset REASON`.
//!
//! A checksum is `-` where none is used. `fin-number IDSN WRITTEN`: the data number of a DATA_FIN.

use case_fields::Case;
use data_close::{fast_close_option, reset_option};
use mptcp_options::MpOption;

pub fn said(case: &mut Case) {
    match option_of(case) {
        Some(option) => case.tell(&option),
        None => case.refuse(),
    }
}

pub fn fin_number(case: &mut Case) {
    let (idsn, written) = (case.number(), case.number());
    case.tell(&data_close::fin_number(idsn, written));
}

fn option_of(case: &mut Case) -> Option<MpOption<'static>> {
    match case.word() {
        "fast-close" => Some(fast_close_option(case.number())),
        "reset" => Some(reset_option(case.number())),
        "capable-syn" => Some(capable_handshake::syn_option(case.truth())),
        "capable-syn-ack" => {
            let (checksums, key) = (case.truth(), case.number());
            Some(capable_handshake::syn_ack_option(checksums, key))
        }
        "capable-ack" => {
            let (checksums, sender, receiver) = (case.truth(), case.number(), case.number());
            Some(capable_handshake::ack_option(checksums, sender, receiver))
        }
        "capable-data" => Some(capable_data(case)),
        name => join_option(case, name),
    }
}

fn capable_data(case: &mut Case) -> MpOption<'static> {
    let (sender, receiver, length) = (case.number(), case.number(), case.number());
    let checksum = case.optional();
    capable_handshake::first_data_option(sender, receiver, length, checksum)
}

fn join_option(case: &mut Case, name: &str) -> Option<MpOption<'static>> {
    if name == "join-syn" {
        let (backup, id, token, nonce) = (
            case.truth(),
            case.number(),
            case.number(),
            case.number(),
        );
        return Some(join_handshake::syn_option(backup, id, token, nonce));
    }
    let (key_a, key_b) = (case.number(), case.number());
    let (nonce_a, nonce_b) = (case.number(), case.number());
    match name {
        "join-answer" => {
            let (backup, id) = (case.truth(), case.number());
            Some(join_handshake::answer_option(key_a, key_b, nonce_a, nonce_b, backup, id))
        }
        "join-third" => Some(join_handshake::third_option(key_a, key_b, nonce_a, nonce_b)),
        _ => None,
    }
}
