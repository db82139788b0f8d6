ghost use Rattle.join_handshake.specs.Laws.{HonestSidesAgree};

/// What one side says at each step, the other side takes, by the same keys and nonces.
pub fn honest_sides_agree()
    ensures { HonestSidesAgree }
{}
