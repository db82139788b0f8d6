ghost use Rattle.std.specs.Prelude.{◌≡◌, ◌++◌, OnOk, OnErr};
ghost use Rattle.mptcp_options.specs.Value.{value_of};
ghost use Rattle.mptcp_options.specs.Text.{HasForm, body_of, option_text};

use crate::address::{add_addr_body, remove_addr_body};
use crate::body::Body;
use crate::capable::capable_body;
use crate::dss::dss_body;
use crate::join::join_body;
use crate::option::{KIND, MpOption};
use crate::signals::{fail_body, fast_close_body, prio_body, reset_body};
use arrayvec::ArrayVec;
use octet_text::Text;
use std::alloc::AllocError;

/// The octets of one option: the options of a segment have at most 40 (RFC 9293, section 3.1).
pub type OptionOctets = ArrayVec<u8, 40>;

/// Appends the octets of an option, or changes nothing where there is no memory for them. The option has the form
/// of its subtype (RFC 8684, section 3): a checksum stands exactly where checksums are used, which `checksum` tells,
/// flag F only with a mapping, 1 to 37 ids in a `Remove`, and an HMAC exactly where an ADD_ADDR is no echo. Reserved
/// bits are written 0, and numbers as wide as they stand.
pub fn write(option: &MpOption<'_>, checksum: bool, out: &mut Text) -> Result<(), AllocError>
    requires { HasForm checksum (value_of option.now) }
    ensures ok { OnOk result (out.new ≡ out.old ++ option_text (value_of option.now)) }
    ensures err { OnErr result (out.new ≡ out.old) }
{
    out.append(octets_of(option, checksum).as_slice())
}

/// The octets that [`write`] appends, by themselves, where the option has the form of its subtype as there: kind,
/// length, which counts both, and body. Takes no memory.
#[tactic(auto, unfolding(crate::specs::Text::option_text))]
pub fn octets_of(option: &MpOption<'_>, checksum: bool) -> OptionOctets
    requires { HasForm checksum (value_of option.now) }
    ensures { result.items ≡ option_text (value_of option.now) }
{
    let body = body_of(option, checksum);
    let mut octets = ArrayVec::new();
    octets.push(KIND);
    octets.push(body.len() as u8 + 2);
    octets.try_extend_from_slice(body.as_slice()).unwrap();
    octets
}

fn body_of(option: &MpOption<'_>, checksum: bool) -> Body
    requires { HasForm checksum (value_of option.now) }
    ensures { result.items ≡ body_of (value_of option.now) }
{
    match option {
        MpOption::Capable {
            flag_a,
            flag_c,
            keys,
        } => capable_body(*flag_a, *flag_c, keys),
        MpOption::Join { form } => join_body(form),
        MpOption::Dss { ack, mapping, fin } => dss_body(ack, mapping, *fin),
        MpOption::AddAddr {
            echo,
            id,
            address,
            port,
            hmac,
        } => add_addr_body(*echo, *id, address, *port, *hmac),
        MpOption::Remove { ids } => remove_addr_body(ids),
        MpOption::Prio { backup } => prio_body(*backup),
        MpOption::Fail { number } => fail_body(*number),
        MpOption::FastClose { key } => fast_close_body(*key),
        MpOption::Reset { transient, reason } => reset_body(*transient, *reason),
    }
}
