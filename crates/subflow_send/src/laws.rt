ghost use Rattle.subflow_send.specs.Laws.{AcknowledgedRecordsAreAPrefix, ExpiryMarksAllButTheFirst};

/// What an acknowledgement lets go is a prefix of the records, each of them covered whole.
pub fn acknowledged_records_are_a_prefix()
    ensures { AcknowledgedRecordsAreAPrefix }
{}

/// An expiry marks every unacknowledged record but the first unsent, and no other.
pub fn expiry_marks_all_but_the_first()
    ensures { ExpiryMarksAllButTheFirst }
{}
