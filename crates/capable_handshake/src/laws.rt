ghost use Rattle.capable_handshake.specs.Laws.{ChecksumsAgree, BothKeysArrive};

/// Client and server come to the same answer about checksums, each by the other's flag.
pub fn checksums_agree()
    ensures { ChecksumsAgree }
{}

/// The server's key comes to the client by the SYN/ACK, and both keys, the client's first, to the server by the ACK and
/// by the first segment with data.
pub fn both_keys_arrive()
    ensures { BothKeysArrive }
{}
