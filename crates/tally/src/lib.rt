// What a stream's presentation times come to since its admission: how many frames had each kind of time, and, over the first 1,000,000
// that were late or ahead, the smallest and the largest offset and the sum.
#![tactic(auto)]

ghost use Rattle.std.specs.Prelude.{◌≡◌};
ghost use Rattle.tally.specs.Tally.{no_tally, raised, kinds_after, is_timed, above_lowest, sums_after, counted};

use presentation::{Kind, Timing};

// How many frames had each kind. A count stays at its largest value once there. The two that most frames raise come first, the others side by
// side behind them: the compiler moves these two at a time, and the last alone.
#[derive(Clone, Copy, Debug, Default, PartialEq, Eq)]
pub struct Kinds {
    pub late: u64,
    pub ahead: u64,
    pub none: u64,
    pub cut: u64,
    pub outside: u64,
    pub unclear: u64,
    pub far: u64,
}

// Offsets lie between -2,147,483,648 and 2,147,483,647. Each is kept by how far it is from one of these ends, so that no number is below
// zero and all of them start at zero.
#[derive(Clone, Copy, Debug, Default, PartialEq, Eq)]
pub struct Sums {
    // how far the smallest is below the highest end
    pub smallest_below: u32,
    // how far the largest is above the lowest end
    pub largest_above: u32,
    // the sum of how far each summed offset is above the lowest end
    pub sum_above: u64,
    pub summed: u32,
    // late or ahead, and past the first 1,000,000; this count too stays at its largest value
    pub unsummed: u64,
}

#[derive(Clone, Copy, Debug, Default, PartialEq, Eq)]
pub struct Tally {
    pub kinds: Kinds,
    pub sums: Sums,
}

// So many frames late or ahead are summed.
const MOST_SUMMED: u32 = 1_000_000;

// The ends that offsets lie between.
const LOWEST: i64 = -2_147_483_648;

const HIGHEST: i64 = 2_147_483_647;

// Nothing counted.
#[tactic(auto, unfolding(crate::specs::Tally::no_tally))]
pub fn none_yet() -> Tally
    ensures { result ≡ no_tally }
{
    Tally::default()
}

// A count, one higher where there is room.
#[tactic(auto, unfolding(crate::specs::Tally::raised))]
fn raised(count: u64) -> u64
    ensures { result ≡ raised count }
{
    count.saturating_add(1)
}

impl Kinds {
    // The count of this kind goes up where there is room, and no other.
    #[tactic(auto, unfolding(crate::specs::Tally::kinds_after))]
    fn count(&mut self, kind: Kind)
        ensures { self.new ≡ kinds_after kind self.old }
    {
        match kind {
            Kind::Late => self.late = raised(self.late),
            Kind::Ahead => self.ahead = raised(self.ahead),
            Kind::None => self.none = raised(self.none),
            Kind::Cut => self.cut = raised(self.cut),
            Kind::Outside => self.outside = raised(self.outside),
            Kind::Unclear => self.unclear = raised(self.unclear),
            Kind::Far => self.far = raised(self.far),
        }
    }
}

fn is_timed(kind: Kind) -> bool
    ensures { result ≡ is_timed kind }
{
    matches!(kind, Kind::Late | Kind::Ahead)
}

// How far an offset is above the lowest. One past either end, which no frame has, counts as that end.
fn above_lowest(offset: i64) -> u32
    ensures { result ≡ above_lowest offset }
{
    (offset.clamp(LOWEST, HIGHEST) - LOWEST) as u32
}

impl Sums {
    // An offset so far above the lowest, where there is room for it among those that are summed.
    #[tactic(auto, unfolding(crate::specs::Tally::sums_after))]
    fn add(&mut self, above: u32)
        ensures { self.new ≡ sums_after above self.old }
    {
        if self.summed < MOST_SUMMED {
            self.smallest_below = self.smallest_below.max(u32::MAX - above);
            self.largest_above = self.largest_above.max(above);
            self.sum_above = self.sum_above.wrapping_add(above as u64);
            self.summed += 1;
        } else {
            self.unsummed = raised(self.unsummed);
        }
    }
}

impl Tally {
    // One accepted frame more.
    #[tactic(auto, unfolding(crate::specs::Tally::counted))]
    pub fn add(&mut self, timing: Timing)
        ensures { self.new ≡ counted timing self.old }
    {
        self.kinds.count(timing.kind);
        if is_timed(timing.kind) {
            self.sums.add(above_lowest(timing.offset));
        }
    }
}

// The same by value.
pub fn count(tally: Tally, timing: Timing) -> Tally
    ensures { result ≡ counted timing tally }
{
    let mut after = tally;
    after.add(timing);
    after
}
