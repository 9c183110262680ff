// An interval taken, and a pass: what each does to the standing of an hour and to its quarter hour (paper 01, Interval and hour; 31.2.3, 34.1.5; Refused, by place: 12
// to 16; paper 02, 2.1: 19). The contracts cite the definitions of rules_hour and rules_pass.
#![tactic(auto)]

ghost use Rattle.std.specs.Prelude.{◌≡◌, replicate};
ghost use Rattle.std.proofs.lemmas.List.Edits.{sets};
ghost use Rattle.rules_curve.specs.Refusals.{outcome_number};
ghost use Rattle.rules_path.specs.Verdicts.{not_binding};
ghost use Rattle.rules_hour.specs.Hours.{call_refusal};
ghost use Rattle.rules_pass.specs.Passes.{turn_refusal};
ghost use Rattle.rules_state.specs.States.{standing_in, quarter_in, market_in};
ghost use Rattle.rules_state.specs.Verdicts.{verdicts_cells, judged_cells};
ghost use Rattle.rules_state.specs.Takes.{if_accepted, standing_written, quarter_written};
ghost use Rattle.interval.specs.Over.{lent_interval};

use interval::LentInterval;
use rules_curve::Refusal;
use rules_hour::Standing;
use rules_interval::Interval;
use rules_pass::Quarter;

// An interval of these values taken in the hour that the state stands for: its cuts and the count go into the state, and its verdicts to the front of `verdicts`; or the
// lowest of refusals 12 to 16 that applies, and both as they were.
pub fn take_into(
    state: &mut [i64],
    asked: &LentInterval,
    verdicts: &mut [i64; rules_state::VERDICT_ROOM],
) -> Result<(), Refusal>
    ensures number { outcome_number result ≡ call_refusal (market_in state.old) (standing_in state.old) (lent_interval asked.now) }
    ensures state { state.new ≡ if_accepted (call_refusal (market_in state.old) (standing_in state.old) (lent_interval asked.now)) (standing_written state.old (lent_interval asked.now)) state.old }
    ensures verdicts { verdicts.new ≡ if_accepted (call_refusal (market_in state.old) (standing_in state.old) (lent_interval asked.now)) (sets verdicts.old 0 (judged_cells (market_in state.old) (lent_interval asked.now))) verdicts.old }
{
    let accepted = cells::whole_at(state, 0);
    if Standing::MAX_INTERVALS <= accepted {
        return Err(Refusal::HourFull);
    }
    cutting::cut_into(state, false, accepted + 1, asked, verdicts)
}

// A pass of these values taken in the hour that the state stands for, into its quarter hour; or 19, or the lowest of refusals 13 to 16 that applies, and the state and
// `verdicts` as they were.
pub fn pass_into(
    state: &mut [i64],
    asked: &LentInterval,
    verdicts: &mut [i64; rules_state::VERDICT_ROOM],
) -> Result<(), Refusal>
    ensures number { outcome_number result ≡ turn_refusal (market_in state.old) (standing_in state.old).accepted (quarter_in state.old) (lent_interval asked.now) }
    ensures state { state.new ≡ if_accepted (turn_refusal (market_in state.old) (standing_in state.old).accepted (quarter_in state.old) (lent_interval asked.now)) (quarter_written state.old (lent_interval asked.now)) state.old }
    ensures verdicts { verdicts.new ≡ if_accepted (turn_refusal (market_in state.old) (standing_in state.old).accepted (quarter_in state.old) (lent_interval asked.now)) (sets verdicts.old 0 (judged_cells (market_in state.old) (lent_interval asked.now))) verdicts.old }
{
    let accepted = cells::whole_at(state, 0);
    let passes = cells::whole_at(state, rules_state::QUARTER_FROM);
    if accepted == 0 {
        return Err(Refusal::PassTurn);
    }
    if Quarter::MAX_PASSES <= passes {
        return Err(Refusal::PassTurn);
    }
    cutting::cut_into(state, true, passes + 1, asked, verdicts)
}

// The cells of verdicts that are not binding, one for each constraint.
pub fn none_found() -> [i64; rules_state::VERDICT_ROOM]
    ensures { result ≡ verdicts_cells (replicate 32 not_binding) }
{
    let mut found = [0i64; rules_state::VERDICT_ROOM];
    for c in 0..Interval::MAX_CONSTRAINTS {
        found[rules_state::VERDICT_WIDTH * c] = 2;
    }
    found
}
