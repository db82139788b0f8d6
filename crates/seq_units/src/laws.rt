ghost use Rattle.std.specs.Prelude.{◌^◌};
ghost use Rattle.seq_units.specs.Laws.{EachNumberMeansAPosition, NoNumberMeansTwoPositions, NumberIsReadBack, LowHalfIsWidenedBack};

/// Beside an expected position each number means one position, and only one.
pub fn each_number_means_one_position()
    ensures one32 { EachNumberMeansAPosition (2 ^ 32) }
    ensures only32 { NoNumberMeansTwoPositions (2 ^ 32) }
    ensures one64 { EachNumberMeansAPosition (2 ^ 64) }
    ensures only64 { NoNumberMeansTwoPositions (2 ^ 64) }
{}

/// The number of a position, read beside any expected position less than half the number space away, is that
/// position again.
pub fn number_is_read_back()
    ensures bits32 { NumberIsReadBack (2 ^ 32) }
    ensures bits64 { NumberIsReadBack (2 ^ 64) }
{}

/// The low half of a number, widened beside an expected number less than 2^31 away, is that number again.
pub fn low_half_is_widened_back()
    ensures { LowHalfIsWidenedBack }
{}
