//! Places side by side whose images lie side by side.

ghost use Rattle.std.specs.Prelude.{◌≡◌, ◌+◌, ◌-◌, ◌<◌, ◌≤◌};
ghost use Rattle.first_runs.specs.Runs.{cut_to, Fits};

/// Places that follow one another, and their images, which follow one another too: `from` has `image`, the next one the next.
#[derive(Clone, Copy, Debug, PartialEq, Eq)]
pub struct Run {
    pub from: u64,
    /// The place behind the last.
    pub to: u64,
    pub image: u64,
    /// Who told them.
    pub teller: u32,
}

impl Run {
    /// The image of a place of the run.
    pub fn image_at(&self, place: u64) -> u64
        requires begun { self.now.from ≤ place }
        requires within { place < self.now.to }
        requires fits { Fits self.now }
        ensures { result ≡ self.now.image + (place - self.now.from) }
    {
        self.image + (place - self.from)
    }

    /// The places of the run that are in a range, of which it has the first.
    pub fn within(&self, from: u64, to: u64) -> Run
        requires begun { self.now.from ≤ from }
        requires within { from < self.now.to }
        requires fits { Fits self.now }
        ensures { result ≡ cut_to from to self.now }
    {
        Run {
            from,
            to: self.to.min(to),
            image: self.image_at(from),
            teller: self.teller,
        }
    }
}
