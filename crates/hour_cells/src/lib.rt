// An hour in lent cells: the present curve and the five-minute curve of a resource, and an interval or a pass taken (paper 01, Interval and hour; 31.2.3, 34.1.5; Refused,
// by place: 12 to 16; paper 02, 2.1: 19). The contracts cite the definitions of rules_state and specs/Calls.
#![tactic(auto)]

ghost use Rattle.std.specs.Prelude.{◌≡◌};
ghost use Rattle.std.proofs.lemmas.List.Edits.{sets};
ghost use Rattle.rules_curve.specs.Refusals.{outcome_number};
ghost use Rattle.rules_hour.specs.Hours.{curve_in};
ghost use Rattle.rules_pass.specs.Passes.{five_minute_in};
ghost use Rattle.rules_library.specs.Slices.{if_written};
ghost use Rattle.rules_state.specs.Calls.{called_number};
ghost use Rattle.rules_state.specs.States.{market_in, hour_in};
ghost use Rattle.rules_state.specs.Verdicts.{judged_cells};
ghost use Rattle.rules_state.specs.Takes.{if_accepted};
ghost use Rattle.interval.specs.Over.{lent_interval};
ghost use Rattle.hour_cells.specs.Calls.{refusal_by, answer_in, written_by};

use interval::LentInterval;
use rules_curve::Refusal;
use rules_mitigation::Mitigated;
use rules_state::CallError;

// The present curve of resource r of the hour that the state stands for: a blank one where it has no such resource.
pub fn present_in(state: &[i64], r: usize) -> Mitigated
    ensures { result ≡ curve_in (hour_in state.now).hour r }
{
    standing::row_curve(
        market_cells::row_in(state, r),
        state_cells::floor_in(state, r),
    )
}

// Its five-minute curve, from the passes since the last accepted interval.
pub fn five_minute_in(state: &[i64], r: usize) -> Mitigated
    ensures { result ≡ five_minute_in (hour_in state.now) r }
{
    let row = market_cells::row_in(state, r);
    let floor = state_cells::floor_in(state, r);
    let lowest = state_cells::pass_floor_in(state, r);
    standing::row_curve(row, standing::cut_floor(floor, lowest.price))
}

// A pass, or an interval, of these values taken in the hour that the state stands for; an accepted interval begins a quarter hour.
fn taken_into(
    state: &mut [i64],
    pass: bool,
    asked: &LentInterval,
    verdicts: &mut [i64; rules_state::VERDICT_ROOM],
) -> Result<(), Refusal>
    ensures number { outcome_number result ≡ refusal_by pass state.old (lent_interval asked.now) }
    ensures state { state.new ≡ if_accepted (refusal_by pass state.old (lent_interval asked.now)) (written_by pass state.old (lent_interval asked.now)) state.old }
    ensures verdicts { verdicts.new ≡ if_accepted (refusal_by pass state.old (lent_interval asked.now)) (sets verdicts.old 0 (judged_cells (market_in state.old) (lent_interval asked.now))) verdicts.old }
{
    if pass {
        return taking::pass_into(state, asked, verdicts);
    }
    taking::take_into(state, asked, verdicts)?;
    state_puts::put_quarter(state, standing::fresh_quarter());
    Ok(())
}

// The same in the cells of a whole hour: fewer are answered as too few. `outputs` has locational price, dispatch, available and floor of each resource in turn, and
// numbers past the end of a slice of values count as 0. Its verdicts go to the front of `verdicts`. Refused, or with too few cells, both are as they were.
pub fn call_into(
    state: &mut [i64],
    pass: bool,
    asked: &LentInterval,
    verdicts: &mut [i64; rules_state::VERDICT_ROOM],
) -> Result<(), CallError>
    ensures number { called_number result ≡ answer_in pass state.old (lent_interval asked.now) }
    ensures state { state.new ≡ if_written (answer_in pass state.old (lent_interval asked.now)) (written_by pass state.old (lent_interval asked.now)) state.old }
    ensures verdicts { verdicts.new ≡ if_written (answer_in pass state.old (lent_interval asked.now)) (sets verdicts.old 0 (judged_cells (market_in state.old) (lent_interval asked.now))) verdicts.old }
{
    if state.len() < rules_state::STATE_ROOM {
        return Err(CallError::TooShort);
    }
    taken_into(state, pass, asked, verdicts).map_err(CallError::Refused)
}
