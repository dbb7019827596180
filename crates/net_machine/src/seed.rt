ghost use Rattle.std.specs.Prelude.{◌≡◌, ◌<◌, ◌%◌, ◌/◌, ◌^◌};
ghost use Rattle.net_machine.specs.Seeds.{next_seed, place_in};

/// The number by which the next event is chosen; at 0 the first one always is.
///
/// Rule: docs/machine.md, "Choosing".
#[derive(Clone, Copy, Debug, PartialEq, Eq)]
pub struct Seed(pub u64);

const FACTOR: u64 = 6364136223846793005;

const STEP: u64 = 1442695040888963407;

impl Seed {
    /// The seed after a choice.
    pub fn next(self) -> Seed
        ensures { result.0 ≡ next_seed self.0 }
    {
        if self.0 == 0 {
            return self;
        }
        Seed(self.0.wrapping_mul(FACTOR).wrapping_add(STEP))
    }

    /// The place that this seed takes among `count` events, counted from 0.
    pub fn place(self, count: usize) -> usize
        requires { 0 < count }
        ensures value { result ≡ place_in count self.0 }
        ensures within { result < count }
    {
        ((self.0 >> 33) % count as u64) as usize
    }
}
