// The number of a finding, and how many sellers a verdict names (paper 01, Path verdict). The contracts cite the definitions of rules_path.
#![tactic(auto)]

ghost use Rattle.std.specs.Prelude.{◌≡◌};
ghost use Rattle.std.specs.Int.Count.{ones};
ghost use Rattle.rules_path.specs.Verdicts.{finding_number};

use rules_path::Finding;

// The paper's number.
pub fn finding_number(finding: Finding) -> u64
    ensures { result ≡ finding_number finding }
{
    match finding {
        Finding::Competitive => 0,
        Finding::NonCompetitive => 1,
        Finding::NotBinding => 2,
    }
}

// How many sellers the bits of a verdict name.
pub fn sellers_named(named: u32) -> u32
    ensures { result ≡ ones named }
{
    number::ones_in(named)
}
