// An hour's marks, and the default designation by a tally (paper 02, 2.10; 39.7.3). The contracts cite the definitions of rules_designation.
#![tactic(auto)]

ghost use Rattle.std.specs.Prelude.{◌≡◌, map};
ghost use Rattle.rules_state.specs.Verdicts.{finding_by};
ghost use Rattle.rules_designation.specs.Designations.{hours_in, is_competitive, designation};
ghost use Rattle.rules_designation.specs.Marks.{marked_at, marked_day};
ghost use Rattle.designation.specs.Numbers.{any_within};

use rules_designation::{Day, Tally};
use rules_path::Finding;

// How many hours sixty masks mark.
pub fn hours_in(masks: [u32; Tally::DAYS]) -> u32
    ensures { result ≡ hours_in masks }
{
    let mut sum = 0;
    for mask in masks {
        sum += number::ones_in(mask);
    }
    sum
}

// Whether a constraint with so many bound hours, and so many non-competitive ones, is competitive.
fn is_competitive(bound: u32, noncompetitive: u32) -> bool
    ensures { result ≡ is_competitive bound noncompetitive }
{
    if bound < Tally::LEAST_BOUND {
        return false;
    }
    if bound < noncompetitive {
        return false;
    }
    3 * (bound as u64) <= 4 * ((bound - noncompetitive) as u64)
}

// The default verdict on the tally's constraint.
pub fn designated(tally: Tally) -> Finding
    ensures { result ≡ designation tally }
{
    if is_competitive(hours_in(tally.bound), hours_in(tally.noncompetitive)) {
        Finding::Competitive
    } else {
        Finding::NonCompetitive
    }
}

// Whether any of these numbers lies from lo to 1.
fn any_within(findings: &[i64], lo: i64) -> bool
    ensures { result ≡ any_within lo findings.now }
{
    for finding in findings {
        if number::within(*finding, lo, 1) {
            return true;
        }
    }
    false
}

// A mask with the mark of an hour where the test holds; an hour past the 24 is marked past the 24.
fn marked_at(hour: usize, test: bool, mask: u32) -> u32
    ensures { result ≡ marked_at hour test mask }
{
    if test {
        mask | (1 << number::at_most(hour, Day::HOURS))
    } else {
        mask
    }
}

// The day with an hour's marks, by the findings on the constraint in intervals of that hour: 0 competitive, 1 non-competitive, any other number not binding.
pub fn marked(day: Day, hour: usize, findings: &[i64]) -> Day
    ensures { result ≡ marked_day day hour (map finding_by findings.now) }
{
    Day {
        bound: marked_at(hour, any_within(findings, 0), day.bound),
        noncompetitive: marked_at(hour, any_within(findings, 1), day.noncompetitive),
        ..day
    }
}
