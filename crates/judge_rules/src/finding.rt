//! Rules, and what breaks them.

ghost use Rattle.std.specs.Prelude.{◌≡◌};

/// The rules, in the order in which lines of one packet are told.
#[derive(Clone, Copy, PartialEq, Eq)]
pub enum Rule {
    Form,
    Keys,
    Token,
    JoinHmac,
    AddressHmac,
    FastCloseKey,
    Mapping,
    Within,
    PlaceContent,
    DssSum,
    DataAck,
    DataFin,
    Infinite,
    Fail,
}

impl Rule {
    ghost use Rattle.judge_rules.specs.Rules.{rule_number};

    /// Where its line stands among those of one packet, from 0 on.
    pub fn number(self) -> u8
        ensures { result ≡ rule_number self }
    {
        match self {
            Rule::Form => 0,
            Rule::Keys => 1,
            Rule::Token => 2,
            Rule::JoinHmac => 3,
            Rule::AddressHmac => 4,
            Rule::FastCloseKey => 5,
            Rule::Mapping => 6,
            Rule::Within => 7,
            Rule::PlaceContent => 8,
            Rule::DssSum => 9,
            Rule::DataAck => 10,
            Rule::DataFin => 11,
            Rule::Infinite => 12,
            Rule::Fail => 13,
        }
    }
}

/// How a data number stood in an option: in eight octets, or the low four.
#[derive(Clone, Copy)]
pub enum Told {
    Whole { number: u64 },
    Low { number: u32 },
}

/// What breaks a rule, as it is told.
#[derive(Clone, Copy)]
pub enum Finding {
    /// `keys`, `join-hmac` of a SYN/ACK, `address-hmac`, `fast-close-key`.
    Number64 {
        expected: u64,
        was: u64,
    },
    /// `token`.
    Number32 {
        expected: u32,
        was: u32,
    },
    /// `join-hmac` of a third segment.
    Hmac160 {
        expected: [u8; 20],
        was: [u8; 20],
    },
    /// `mapping`, `data-ack`: a data number that means no place.
    NoPlace {
        number: Told,
    },
    /// `mapping`: a relative number that means no position.
    NoPosition {
        relative: u32,
    },
    /// `mapping`: a position that had another place, told by this packet.
    OtherPlace {
        position: u64,
        was: u64,
        packet: u32,
        is: u64,
    },
    /// `infinite`: a position and its place, after the packet of an infinite mapping.
    AfterInfinite {
        position: i64,
        place: u64,
        packet: u32,
    },
    /// `data-fin`: another place was told, by this packet.
    OtherFin {
        place: u64,
        was: u64,
        packet: u32,
    },
    /// `data-fin`: places up to this one are mapped.
    MappedBeyond {
        place: u64,
        mapped: u64,
    },
    /// `data-fin`: what is mapped reaches past the place that was told by this packet.
    BeyondFin {
        mapped: u64,
        was: u64,
        packet: u32,
    },
    /// `within`: the first and the last position of the payload, and of the mapping.
    Outside {
        from: u64,
        last: u64,
        mapped_from: u64,
        mapped_last: u64,
    },
    /// `place-content`: a place had another octet, in this packet.
    OtherOctet {
        place: u64,
        was: u8,
        packet: u32,
        is: u8,
    },
    /// `dss-sum`: of the mapping that this packet told.
    WrongSum {
        place: u64,
        length: u16,
        packet: u32,
        expected: u16,
        was: u16,
    },
    /// `data-ack`: a place above the most that was seen.
    NotSeen {
        place: u64,
        most: u64,
    },
    /// `data-ack`: a place below an earlier one.
    Falls {
        place: u64,
        after: u64,
    },
    /// `fail`: a data number with which no mapping begins.
    NoMapping {
        number: u64,
    },
}

/// What a rule says of an option.
#[derive(Clone, Copy)]
pub enum Verdict {
    /// The rule isn't on this option, or not enough is known.
    PassedOver,
    Kept,
    Broke { finding: Finding },
}
