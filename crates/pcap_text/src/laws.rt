//! What holds of captures and headers.

ghost use Rattle.pcap_text.specs.Ipv4.{HeadersSumUp};
ghost use Rattle.pcap_text.specs.Reading.{CapturesAreReadAgain};

/// What is written of blocks is read as these blocks, by who finds each field at its place.
pub fn captures_are_read_again()
    ensures { CapturesAreReadAgain }
{}

/// The sum over each header is ffff, as who receives it checks (RFC 791, section 3.1).
pub fn headers_sum_up()
    ensures { HeadersSumUp }
{}
