//! Laws of the trace of a run.

ghost use Rattle.run_trace.specs.Rates.{EachPathHasItsRates};
ghost use Rattle.run_trace.specs.Telling.{SentLinesTellTheTrace, TicksRiseByPath};

/// A law: after any turns the steps of each path that tell a segment tell just the segments of the trace on that path, in their
/// order: the side, the number in its direction, the octets of the payload, the checksum field.
pub fn sent_lines_tell_the_trace()
    ensures { SentLinesTellTheTrace }
{}

/// A law: on each path the ticks of the segments don't fall.
pub fn ticks_rise_by_path()
    ensures { TicksRiseByPath }
{}

/// A law: after any turns there are as many windows and round-trip times of both ends as the connection has paths.
pub fn each_path_has_its_rates()
    ensures { EachPathHasItsRates }
{}
