//! Counts that end at three.

ghost use Rattle.std.specs.Prelude.{◌≡◌};
ghost use Rattle.path_store.specs.Counts.{one_more};

/// One more, up to three.
pub fn one_more(count: u64) -> u64
    ensures { result ≡ one_more count }
{
    if count < 3 { count + 1 } else { count }
}
