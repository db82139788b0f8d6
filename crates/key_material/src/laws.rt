ghost use Rattle.key_material.specs.Laws.{MessageMayBeCutAnywhere, KeyDigestIsCut, JoinHmacsArePrefixes, AddressHmacIsTheEnd};

/// The pieces of a message have the HMAC of the message, wherever it is cut.
pub fn message_may_be_cut_anywhere()
    ensures { MessageMayBeCutAnywhere }
{}

/// What a segment carries of a digest is a prefix of it or its end, octet for octet: of a key's digest, of the HMACs
/// of a join, of the HMAC of an announced address.
pub fn truncations_are_of_one_digest()
    ensures key { KeyDigestIsCut }
    ensures join { JoinHmacsArePrefixes }
    ensures address { AddressHmacIsTheEnd }
{}
