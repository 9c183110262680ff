// The checks of the counts and marks that an hour is opened from (paper 01, Refused, by place: 9, then 10).
// The contracts cite the definitions of rules_opening.
#![tactic(auto)]

ghost use Rattle.std.specs.Prelude.{◌≡◌};
ghost use Rattle.rules_number.specs.Over.{all_to};
ghost use Rattle.rules_interval.specs.Intervals.{cell};
ghost use Rattle.rules_opening.specs.Openings.{counts_within, is_mark};

use rules_interval::Interval;
use rules_opening::Opening;
use rules_path::Market;

// Whether month, portfolio and resource count are within their limits: else 9.
pub fn counts_good(month: i64, portfolios: usize, resources: usize) -> bool
    ensures { result ≡ counts_within month portfolios resources }
{
    number::within(month, 1, Opening::MAX_MONTH)
        && (1..=Market::MAX_PORTFOLIOS).contains(&portfolios)
        && (1..=Interval::MAX_RESOURCES).contains(&resources)
}

// The mark of portfolio p: 0 past the last.
fn mark_at(sellers: &[i64], p: usize) -> i64
    ensures { result ≡ cell sellers.now p }
{
    sellers.get(p).copied().unwrap_or(0)
}

// Whether each seller is 0 or 1: else 10.
pub fn sellers_good(sellers: &[i64], portfolios: usize) -> bool
    ensures { result ≡ all_to (λ p. is_mark (cell sellers.now p)) portfolios }
{
    for p in 0..portfolios {
        if !number::within(mark_at(sellers, p), 0, 1) {
            return false;
        }
    }
    true
}
