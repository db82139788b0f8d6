ghost use Rattle.std.specs.Prelude.{◌≡◌};
ghost use Rattle.capable_handshake.specs.Said.{syn_option, syn_ack_option, ack_option, first_data_option};

use mptcp_options::{CapableKeys, MpOption};

/// The MP_CAPABLE of the client's SYN; `checksum` tells whether the client requires checksums.
pub fn syn_option(checksum: bool) -> MpOption<'static>
    ensures { result ≡ syn_option checksum }
{
    MpOption::Capable {
        flag_a: checksum,
        flag_c: false,
        keys: CapableKeys::NoKey,
    }
}

/// The MP_CAPABLE of the server's SYN/ACK; `checksum` tells whether the server requires checksums, `sender` is the
/// server's key.
pub fn syn_ack_option(checksum: bool, sender: u64) -> MpOption<'static>
    ensures { result ≡ syn_ack_option checksum sender }
{
    MpOption::Capable {
        flag_a: checksum,
        flag_c: false,
        keys: CapableKeys::Sender { sender },
    }
}

/// The MP_CAPABLE of the client's ACK that ends the handshake; `checksum` tells whether the connection uses checksums,
/// `sender` is the client's key and `receiver` the server's.
pub fn ack_option(checksum: bool, sender: u64, receiver: u64) -> MpOption<'static>
    ensures { result ≡ ack_option checksum sender receiver }
{
    MpOption::Capable {
        flag_a: checksum,
        flag_c: false,
        keys: CapableKeys::Both { sender, receiver },
    }
}

/// The MP_CAPABLE of the client's first segment with data; `sender` is the client's key, `receiver` the server's, and
/// `length` counts the octets of data. The checksum of the mapping stands there where the connection uses checksums,
/// and flag A with it.
pub fn first_data_option(
    sender: u64,
    receiver: u64,
    length: u16,
    checksum: Option<u16>,
) -> MpOption<'static>
    ensures { result ≡ first_data_option sender receiver length checksum }
{
    MpOption::Capable {
        flag_a: checksum.is_some(),
        flag_c: false,
        keys: CapableKeys::WithData {
            sender,
            receiver,
            length,
            checksum,
        },
    }
}
