// Cycle time of IEEE 1394, for streams that come through a gateway (request #101): times of the network's clock in nanoseconds, times of
// the cycle clock in ticks, and a frame judged by its SYT. The clocks are two types, and only conversions cross between them:
// `to_cycle_time`, `to_ticks` and `judge` one way, by `tick_in_second`, and `to_nanoseconds` the other, by `first_nanosecond`.
#![tactic(auto)]

pub mod judgement;

ghost use Rattle.std.specs.Prelude.{◌≡◌, ◌<◌};
ghost use Rattle.refusal.specs.Refusals.{verdict_number};
ghost use Rattle.cycle.specs.CycleTime.{tick_in_second, cycle_time_of, ticks_of, first_nanosecond, OneNanosecond, cycle_refusal, syt_answered, syt_answer, time_answered, time_answer, TickAndBack, NanosecondAndBack};

use refusal::Refusal;

// A time of the network's clock.
#[derive(Clone, Copy, PartialEq, Eq, PartialOrd, Ord, Debug)]
pub struct Nanoseconds(pub u64);

// Ticks of the cycle clock. `to_ticks` counts them from cycle second 0; private calls also from the start of a second, or modulo 16
// cycles.
#[derive(Clone, Copy, PartialEq, Eq, PartialOrd, Ord, Debug)]
pub struct Ticks(pub u64);

// A time of the cycle clock by its parts. They may be out of range; the calls that take a cycle time refuse it then.
#[derive(Clone, Copy, PartialEq, Eq, Debug)]
pub struct CycleTime {
    pub seconds: u64,
    pub cycle: u64,
    pub offset: u64,
}

// The tick within its second.
#[tactic(auto, unfolding(crate::specs::CycleTime::tick_in_second))]
pub(crate) fn tick_in_second(time: Nanoseconds) -> Ticks
    ensures { result ≡ tick_in_second time }
{
    let scaled = time.0 % 1_000_000_000 * 384;
    Ticks(scaled / 15_625)
}

// The cycle time of any nanosecond.
#[tactic(auto, unfolding(crate::specs::CycleTime::cycle_time_of))]
pub fn to_cycle_time(time: Nanoseconds) -> CycleTime
    ensures { result ≡ cycle_time_of time }
{
    let tick = tick_in_second(time);
    CycleTime {
        seconds: time.0 / 1_000_000_000 % 128,
        cycle: tick.0 / 3_072,
        offset: tick.0 % 3_072,
    }
}

#[tactic(auto, using(crate::proofs::Range::parts), unfolding(crate::specs::CycleTime::ticks_of))]
fn ticks_of(time: CycleTime) -> Ticks
    requires { cycle_refusal time ≡ 0 }
    ensures { result ≡ ticks_of time }
{
    let cycles = time.seconds * 8_000 + time.cycle;
    let ticks = cycles * 3_072 + time.offset;
    Ticks(ticks)
}

// The ticks from cycle second 0 on, below 128 seconds of them, of any nanosecond.
#[tactic(auto, using(crate::proofs::Range::always_in_range))]
pub fn to_ticks(time: Nanoseconds) -> Ticks
    ensures { result ≡ ticks_of (cycle_time_of time) }
{
    ticks_of(to_cycle_time(time))
}

#[tactic(auto, unfolding(refusal::specs::Refusals::first_of, crate::specs::CycleTime::cycle_checks, crate::specs::CycleTime::cycle_refusal))]
fn check_cycle_time(time: CycleTime) -> Result<(), Refusal>
    ensures { verdict_number result ≡ cycle_refusal time }
{
    if 7_999 < time.cycle {
        return Err(Refusal::CycleTooLarge);
    }
    if 3_071 < time.offset {
        return Err(Refusal::OffsetInCycleTooLarge);
    }
    if 127 < time.seconds {
        return Err(Refusal::CycleSecondsTooLarge);
    }
    Ok(())
}

// The SYT field that stands for a cycle time.
pub fn to_syt(time: CycleTime) -> Result<u16, Refusal>
    ensures { syt_answer result ≡ syt_answered time }
{
    check_cycle_time(time)?;
    let field = (((time.cycle % 16) << 12) | time.offset) as u16;
    Ok(field)
}

// 384 ticks take 15,625 nanoseconds; what is left of a nanosecond counts as a whole one.
#[tactic(auto, unfolding(crate::specs::CycleTime::first_nanosecond))]
fn first_nanosecond(ticks: Ticks) -> Nanoseconds
    requires { ticks.0 < 3_145_728_000 }
    ensures { result ≡ first_nanosecond ticks }
{
    let scaled = ticks.0 * 15_625;
    let raised = scaled + 383;
    Nanoseconds(raised / 384)
}

// The smallest nanosecond that is not before a cycle time, from the start of cycle second 0 on and so below 128 seconds.
pub fn to_nanoseconds(time: CycleTime) -> Result<Nanoseconds, Refusal>
    ensures { time_answer result ≡ time_answered time }
{
    check_cycle_time(time)?;
    Ok(first_nanosecond(ticks_of(time)))
}

// That nanosecond is the smallest not before the cycle time, and no other is.
#[tactic(auto, using(crate::proofs::BothWays::one_nanosecond))]
fn one_nanosecond()
    ensures { OneNanosecond }
{}

// A cycle time in range, to nanoseconds and back, is the same cycle time.
#[tactic(auto, using(crate::proofs::BothWays::tick_and_back))]
fn tick_and_back()
    ensures { TickAndBack }
{}

// Nanoseconds below 128 seconds, to a cycle time and back, are never later and at most 40 earlier.
#[tactic(auto, using(crate::proofs::BothWays::nanosecond_and_back))]
fn nanosecond_and_back()
    ensures { NanosecondAndBack }
{}
