//! `option OCTETS`: what `mptcp_options::read` answers, and for an option that is known the octets that `write` makes
//! of it. Where that depends on whether checksums are used, first the answer without them, and behind ` / ` with them.

ghost use Rattle.std.specs.Prelude.{◌≤◌, length};

use case_fields::{Case, digits};
use mptcp_options::{Read, read, write};
use octet_text::Text;
use std::alloc::{AllocError, Global};

/// The most octets that the options of a segment have.
const LONGEST: usize = 40;

pub fn option(case: &mut Case) {
    let octets = case.octets();
    put_answers(case, octets.as_slice());
}

fn put_answers(case: &mut Case, octets: &[u8]) {
    if octets.len() > LONGEST {
        return case.refuse();
    }
    let alloc = case.alloc;
    let Ok(without) = read_and_written(alloc, octets, false) else {
        return case.fail();
    };
    let Ok(with) = read_and_written(alloc, octets, true) else {
        return case.fail();
    };
    put_both(case, without.as_str(), with.as_str());
}

/// Both answers, or the one where they are equal.
fn put_both(case: &mut Case, without: &str, with: &str) {
    case.put(without);
    if without != with {
        case.put(" / ");
        case.put(with);
    }
}

fn read_and_written(alloc: Global, octets: &[u8], checksum: bool) -> Result<String, AllocError>
    requires { length octets.now ≤ 40 }
{
    match read(octets, checksum) {
        Read::Known(option) => {
            let mut text = Text::new(alloc);
            write(&option, checksum, &mut text)?;
            let again = digits(alloc, text.as_bytes())?;
            format!(in alloc; "{option:?} {again}")
        }
        Read::Unknown => format!(in alloc; "Unknown"),
        Read::Malformed => format!(in alloc; "Malformed"),
    }
}
