// The verdicts of an interval read from a lent slice of numbers. The contracts cite the definitions of rules_state.
#![tactic(auto)]

ghost use Rattle.std.specs.Prelude.{◌≡◌, ◌<◌};
ghost use Rattle.rules_state.specs.Layout.{most_constraints, most_portfolios};
ghost use Rattle.rules_state.specs.States.{wholes_in};
ghost use Rattle.rules_state.specs.Verdicts.{finding_by, verdict_in, verdicts_in};

use rules_interval::Interval;
use rules_path::{Finding, Market, Verdict};

// The finding of a number: any other than 0 and 1 is not binding.
fn finding_by(number: i64) -> Finding
    ensures { result ≡ finding_by number }
{
    match number {
        0 => Finding::Competitive,
        1 => Finding::NonCompetitive,
        _ => Finding::NotBinding,
    }
}

// A whole number of each portfolio, from a cell on.
pub fn portfolios_in(numbers: &[i64], at: usize) -> [u64; Market::MAX_PORTFOLIOS]
    ensures { result ≡ wholes_in numbers.now at most_portfolios }
{
    let mut wholes = [0u64; Market::MAX_PORTFOLIOS];
    if numbers.len() <= at {
        return wholes;
    }
    for (p, whole) in wholes.iter_mut().enumerate() {
        *whole = cells::whole_at(numbers, at + p);
    }
    wholes
}

// The verdict on constraint c.
fn verdict_in(numbers: &[i64], c: usize) -> Verdict
    requires { c < most_constraints }
    ensures { result ≡ verdict_in numbers.now c }
{
    let at = rules_state::VERDICT_WIDTH * c;
    Verdict {
        finding: finding_by(cells::cell_at(numbers, at)),
        demand: cells::whole_at(numbers, at + 1),
        left: cells::whole_at(numbers, at + 2),
        named: (cells::whole_at(numbers, at + 3) % 4_294_967_296) as u32,
        withheld: portfolios_in(numbers, at + 4),
    }
}

// The verdict on each constraint.
pub fn verdicts_in(numbers: &[i64]) -> [Verdict; Interval::MAX_CONSTRAINTS]
    ensures { result ≡ verdicts_in numbers.now }
{
    let mut verdicts = [verdict_in(numbers, 0); Interval::MAX_CONSTRAINTS];
    for (c, verdict) in verdicts.iter_mut().enumerate() {
        *verdict = verdict_in(numbers, c);
    }
    verdicts
}
