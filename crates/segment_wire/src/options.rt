//! The options of a header (RFC 9293, section 3.2).

ghost use Rattle.std.specs.Prelude.{◌≡◌};
ghost use Rattle.std.specs.Iterator.{YieldsFirstBy, item_count};
ghost use Rattle.std.specs.Ptr.{as_ptr};
ghost use Rattle.segment_wire.specs.Options.{are_whole, broken_part, placed_options, mss_of, window_scale_of};
ghost use Rattle.segment_wire.specs.OptionFront.{IsFront, options_left};

// The kinds that are one octet alone, and those that are read here (RFC 9293, section 3.2; RFC 7323, section 2.2).
const END_OF_OPTIONS: u8 = 0;

const NO_OPERATION: u8 = 1;

const MAXIMUM_SEGMENT_SIZE: u8 = 2;

const WINDOW_SCALE: u8 = 3;

/// The options of a segment in their order, each a part of the input: kind, length and body. Kinds 0 and 1, which end
/// and pad the options, are left out.
#[derive(Clone, Copy)]
pub struct PlainOptions<'a> {
    rest: &'a [u8],
}

impl<'a> PlainOptions<'a> {
    // The options in these octets.
    pub(crate) fn of(octets: &'a [u8]) -> Self
        ensures { options_left result ≡ placed_options (as_ptr octets.entry) octets.now }
    {
        PlainOptions { rest: octets }
    }
}

impl<'a> Iterator for PlainOptions<'a> {
    type Item = &'a [u8];

    ghost next_gives = { YieldsFirstBy (λ option. (as_ptr option, option.now)) options_left };

    ghost remaining = { item_count options_left };

    fn next(&mut self) -> Option<&'a [u8]> {
        loop {
            match front_of(self.rest) {
                Front::Padding(rest) => self.rest = rest,
                Front::Whole(option, rest) => {
                    self.rest = rest;
                    return Some(option);
                }
                Front::End | Front::Broken => return None,
            }
        }
    }
}

/// Whether no option has a length below 2 or runs past the end of these octets. What follows kind 0, which ends the
/// options, is not looked at.
pub fn are_whole(options: &[u8]) -> bool
    ensures { result ≡ are_whole options.now }
{
    let mut rest = options;
    loop {
        match front_of(rest) {
            Front::Padding(others) | Front::Whole(_, others) => rest = others,
            Front::End => return true,
            Front::Broken => return false,
        }
    }
}

/// The octets from the first option on whose length is below 2 or that runs past the end. Empty where there is none.
pub fn broken_part(options: &[u8]) -> &[u8]
    ensures { result.now ≡ broken_part options.now }
{
    let mut rest = options;
    loop {
        match front_of(rest) {
            Front::Padding(others) | Front::Whole(_, others) => rest = others,
            Front::End => return &[],
            Front::Broken => return rest,
        }
    }
}

// What stands at the front of option octets.
#[derive(Clone, Copy)]
enum Front<'a> {
    // Nothing more: the octets end, or kind 0 ends the options.
    End,
    // Kind 1, and what follows it.
    Padding(&'a [u8]),
    // An option, and what follows it.
    Whole(&'a [u8], &'a [u8]),
    // An option whose length is below 2 or runs past the end.
    Broken,
}

fn front_of(options: &[u8]) -> Front<'_>
    ensures { IsFront options.entry result }
{
    if options.is_empty() || options[0] == END_OF_OPTIONS {
        return Front::End;
    }
    if options[0] == NO_OPERATION {
        return Front::Padding(&options[1..]);
    }
    if options.len() < 2 {
        return Front::Broken;
    }
    let len = usize::from(options[1]);
    if len < 2 || options.len() < len {
        return Front::Broken;
    }
    Front::Whole(&options[..len], &options[len..])
}

/// The maximum segment size in octets that this option tells: kind 2 of length 4 (RFC 9293, section 3.2). None where
/// it is another option, or one of this kind with another length.
pub fn mss(option: &[u8]) -> Option<u16>
    ensures { result ≡ mss_of option.now }
{
    match option {
        [MAXIMUM_SEGMENT_SIZE, 4, high, low] => Some(u16::from_be_bytes([*high, *low])),
        _ => None,
    }
}

/// How many bits windows are shifted by, as this option tells: kind 3 of length 3 (RFC 7323, section 2.2), and more
/// than 14 counts as 14 (section 2.3). None where it is another option, or one of this kind with another length.
pub fn window_scale(option: &[u8]) -> Option<u8>
    ensures { result ≡ window_scale_of option.now }
{
    match option {
        [WINDOW_SCALE, 3, shift] => Some((*shift).min(14)),
        _ => None,
    }
}
