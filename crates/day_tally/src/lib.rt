// The sixty-day tally of a constraint (paper 02, 2.10; 39.7.3). The contracts cite the definitions of rules_designation. `update` changes a lent tally; it is thin, over
// `next`, which takes and hands back a tally. Every day that is added goes through it.
#![tactic(auto)]

ghost use Rattle.std.specs.Prelude.{◌≡◌};
ghost use Rattle.std.specs.Result.{result_unwrap_or};
ghost use Rattle.rules_curve.specs.Refusals.{outcome_number};
ghost use Rattle.rules_designation.specs.Tallies.{held_after, later_than, marks_within, day_refusal, pushed, tally_after, fresh_tally};

use rules_curve::Refusal;
use rules_designation::{Day, Tally};

// The masks with one more in front, and the oldest one gone.
fn pushed(masks: [u32; Tally::DAYS], mask: u32) -> [u32; Tally::DAYS]
    ensures { result ≡ pushed masks mask }
{
    let mut out = [0u32; Tally::DAYS];
    out[0] = mask;
    out[1..].copy_from_slice(&masks[..Tally::DAYS - 1]);
    out
}

// Whether no mark is past the 24 hours and each non-competitive hour is bound.
fn marks_good(bound: u32, noncompetitive: u32) -> bool
    ensures { result ≡ marks_within bound noncompetitive }
{
    bound <= Day::ALL_HOURS
        && noncompetitive <= Day::ALL_HOURS
        && noncompetitive & bound == noncompetitive
}

// Whether a day is above the last accepted one, if there is one.
fn is_later(days: u32, last: u32, number: u32) -> bool
    ensures { result ≡ later_than days last number }
{
    days == 0 || last < number
}

// One more day held, sixty at most.
fn one_more(days: u32) -> u32
    ensures { result ≡ held_after days }
{
    if days < Tally::DAYS as u32 {
        days + 1
    } else {
        days
    }
}

// Whether the tally takes a day, or 25.
fn checked(tally: Tally, day: Day) -> Result<(), Refusal>
    ensures { outcome_number result ≡ day_refusal tally day }
{
    if !is_later(tally.days, tally.last, day.number) {
        return Err(Refusal::TradingDay);
    }
    if !marks_good(day.bound, day.noncompetitive) {
        return Err(Refusal::TradingDay);
    }
    Ok(())
}

// A tally without a day.
#[tactic(auto, unfolding(rules_designation::specs::Tallies::fresh_tally))]
pub fn fresh() -> Tally
    ensures { result ≡ fresh_tally }
{
    Tally {
        days: 0,
        last: 0,
        bound: [0; Tally::DAYS],
        noncompetitive: [0; Tally::DAYS],
    }
}

// The tally with the day, or 25.
fn next(tally: Tally, day: Day) -> Result<Tally, Refusal>
    ensures number { outcome_number result ≡ day_refusal tally day }
    ensures tally { result_unwrap_or result tally ≡ tally_after tally day }
{
    checked(tally, day)?;
    Ok(Tally {
        days: one_more(tally.days),
        last: day.number,
        bound: pushed(tally.bound, day.bound),
        noncompetitive: pushed(tally.noncompetitive, day.noncompetitive),
    })
}

// Adds a day to the lent tally, or answers 25 and leaves it as it was.
pub fn update(tally: &mut Tally, day: Day) -> Result<(), Refusal>
    ensures { (outcome_number result ≡ day_refusal tally.old day) × (tally.new ≡ tally_after tally.old day) }
{
    *tally = next(*tally, day)?;
    Ok(())
}

// The same for callers that hold a tally of their own: it is lent to `update`, and handed back.
pub fn with_day(tally: Tally, day: Day) -> Result<Tally, Refusal>
    ensures { (outcome_number result ≡ day_refusal tally day) × (result_unwrap_or result tally ≡ tally_after tally day) }
{
    let mut held = tally;
    update(&mut held, day)?;
    Ok(held)
}
