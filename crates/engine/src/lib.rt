// Opening an hour, taking its intervals and their passes, and its bids (paper 01, Interval and hour; 31.2.3, 34.1.5; Refused, by place: 9 to 16; paper 02, 2.1 and 2.2:
// 19 and 20). The contracts cite the definitions of rules_hour, rules_pass and rules_hour_bid; specs/Hours says which hour the struct stands for.
#![tactic(auto)]

ghost use Rattle.std.specs.Prelude.{⊤, Err, ◌↔◌, ◌≡◌, true, false, ℕ, pos, replicate};
ghost use Rattle.std.specs.Result.{result_unwrap_or};
ghost use Rattle.rules_curve.specs.Demands.{First};
ghost use Rattle.rules_curve.specs.Refusals.{outcome_number, number_of};
ghost use Rattle.rules_mitigation.specs.Mitigation.{blank_mitigated};
ghost use Rattle.rules_opening.specs.Conditions.{opening_demands};
ghost use Rattle.rules_opening.specs.Openings.{opening_refusal};
ghost use Rattle.rules_hour.specs.Hours.{curve_in, hour_refusal, hour_verdicts};
ghost use Rattle.rules_pass.specs.Passes.{blank_real_time, opened_real_time, interval_after, pass_refusal, pass_after, pass_verdicts, five_minute_in};
ghost use Rattle.rules_path.specs.Judgements.{verdicts_of, verdicts_unless};
ghost use Rattle.rules_hour_bid.specs.HourBids.{hour_bid_refusal, hour_bid_of};
ghost use Rattle.rules_state.specs.Layout.{state_room};
ghost use Rattle.rules_state.specs.Calls.{called_number};
ghost use Rattle.rules_state.specs.States.{market_in, state_cells};
ghost use Rattle.rules_state.specs.Takes.{if_accepted};
ghost use Rattle.hour_cells.specs.Calls.{refusal_by, written_by};
ghost use Rattle.engine.specs.Hours.{as_hour, as_real_time, blank_hour, unchanged};
ghost use Rattle.engine.specs.Outputs.{OutputsIn};

use interval::LentInterval;
use opening_cells::LentOpening;
use rules_curve::Refusal;
use rules_hour::Standing;
use rules_interval::Interval;
use rules_mitigation::Mitigated;
use rules_opening::Opening;
use rules_pass::Quarter;
use rules_path::{Finding, Market, Verdict};
use rules_state::CallError;

// An hour, as the cells of rules_state: its standing, the quarter hour that runs, who owns what, and its resources. Every content of them has a meaning.
#[derive(Clone, Copy)]
pub struct Hour {
    pub cells: [i64; rules_state::STATE_ROOM],
}

impl Hour {
    pub const MAX_RESOURCES: usize = Interval::MAX_RESOURCES;

    pub const MAX_INTERVALS: u64 = Standing::MAX_INTERVALS;

    pub const MAX_PASSES: u64 = Quarter::MAX_PASSES;
}

// Locational price, dispatch, available and floor of each resource in turn.
fn outputs_of(v: &Interval) -> [i64; 4 * Interval::MAX_RESOURCES]
    ensures { OutputsIn result v.now.lmp v.now.dispatch v.now.available v.now.floor }
{
    let mut outputs = [0i64; 4 * Interval::MAX_RESOURCES];
    // By index: four arrays are read side by side.
    for r in 0..Interval::MAX_RESOURCES {
        outputs[4 * r] = v.lmp[r];
        outputs[4 * r + 1] = v.dispatch[r];
        outputs[4 * r + 2] = v.available[r];
        outputs[4 * r + 3] = v.floor[r];
    }
    outputs
}

// What is answered of the cells of a whole hour, which are never too few: a refusal.
fn refusal_of(error: CallError) -> Refusal
    ensures { (n : ℕ) → called_number {T = ⊤} (Err error) ≡ pos n → number_of result ≡ n }
{
    match error {
        CallError::Refused(refusal) => refusal,
        CallError::TooShort => Refusal::Counts,
    }
}

// What an accepted interval or pass hands back: the next hour and the verdicts.
#[derive(Clone, Copy)]
pub struct Answer {
    pub hour: Hour,
    pub verdicts: [Verdict; Interval::MAX_CONSTRAINTS],
}

const NOT_BINDING: Verdict = Verdict {
    finding: Finding::NotBinding,
    demand: 0,
    left: 0,
    named: 0,
    withheld: [0; Market::MAX_PORTFOLIOS],
};

impl Answer {
    // What a refused interval or pass leaves its caller: the very hour that came in, and no verdicts. So `hour.interval(v).unwrap_or(Answer::unchanged(hour))` is the
    // hour to go on with, whatever was answered.
    pub fn unchanged(hour: Hour) -> Answer
        ensures { result ≡ unchanged hour }
    {
        Answer {
            hour,
            verdicts: [NOT_BINDING; Interval::MAX_CONSTRAINTS],
        }
    }
}

impl Hour {
    // The hour of no resources.
    pub fn blank() -> Hour
        ensures hour { as_real_time result ≡ blank_real_time }
        ensures cells { result.cells ≡ replicate state_room (pos 0) }
    {
        Hour {
            cells: [0i64; rules_state::STATE_ROOM],
        }
    }

    // The freshly opened hour, or the first refusal: the number of the first of the paper's demands that the opening doesn't meet, and 0 exactly when it meets all.
    pub fn open(o: Opening) -> Result<Hour, Refusal>
        ensures number { outcome_number result ≡ opening_refusal o }
        ensures hour { as_real_time (result_unwrap_or result blank_hour) ≡ opened_real_time o }
        ensures cells { (result_unwrap_or result blank_hour).cells ≡ if_accepted (opening_refusal o) (state_cells (opened_real_time o)) (replicate state_room (pos 0)) }
        ensures exactly { (n : ℕ) → (outcome_number result ≡ n) ↔ First n (opening_demands o) }
    {
        let mut blocks = [0i64; opening_puts::BLOCKS_ROOM];
        opening_puts::put_blocks(&mut blocks, o.list);
        let mut cells = [0i64; rules_state::STATE_ROOM];
        let given = LentOpening {
            month: o.month,
            portfolios: o.portfolios,
            sellers: &o.sellers,
            resources: o.resources,
            blocks: &blocks,
        };
        opening_cells::open_into(&given, &mut cells).map_err(refusal_of)?;
        Ok(Hour { cells })
    }

    // The present curve of resource r: a blank one where the hour has no such resource.
    pub fn curve(self, r: usize) -> Mitigated
        ensures { result ≡ curve_in (as_hour self) r }
    {
        hour_cells::present_in(&self.cells, r)
    }

    // The five-minute curve of resource r, from the passes since the last accepted interval: a blank one where the hour has no such resource.
    pub fn five_minute(self, r: usize) -> Mitigated
        ensures { result ≡ five_minute_in (as_real_time self) r }
    {
        hour_cells::five_minute_in(&self.cells, r)
    }

    // The bid of resource r for the hour, a blank one where the hour has no such resource; or 20 where fewer than four intervals are accepted.
    pub fn hour_bid(self, r: usize) -> Result<Mitigated, Refusal>
        ensures number { outcome_number result ≡ hour_bid_refusal (as_real_time self) }
        ensures curve { result_unwrap_or result blank_mitigated ≡ hour_bid_of (as_real_time self) r }
    {
        if cells::whole_at(&self.cells, 0) < Hour::MAX_INTERVALS {
            return Err(Refusal::HourOpen);
        }
        Ok(hour_cells::present_in(&self.cells, r))
    }

    // A pass, or an interval, taken in the cells of this hour.
    fn called(self, pass: bool, v: Interval) -> Result<Answer, Refusal>
        ensures number { outcome_number result ≡ refusal_by pass self.cells v }
        ensures hour { (result_unwrap_or result (unchanged self)).hour.cells ≡ if_accepted (refusal_by pass self.cells v) (written_by pass self.cells v) self.cells }
        ensures verdicts { (result_unwrap_or result (unchanged self)).verdicts ≡ verdicts_unless (refusal_by pass self.cells v) (verdicts_of (market_in self.cells) v) }
    {
        // The answer is made in place: each hour that is put together from its cells would be copied once more.
        let mut answer = Answer {
            hour: self,
            verdicts: [NOT_BINDING; Interval::MAX_CONSTRAINTS],
        };
        let mut found = taking::none_found();
        let outputs = outputs_of(&v);
        let asked = LentInterval {
            constraints: v.constraints,
            shadow: &v.shadow,
            resources: v.resources,
            outputs: &outputs,
            factors: &v.factors,
            parameter: v.parameter,
        };
        hour_cells::call_into(&mut answer.hour.cells, pass, &asked, &mut found).map_err(
            refusal_of,
        )?;
        answer.verdicts = verdict_cells::verdicts_in(&found);
        Ok(answer)
    }

    // The next hour and the verdicts, or the lowest of refusals 12 to 16 that applies. An accepted interval begins a quarter hour.
    pub fn interval(self, v: Interval) -> Result<Answer, Refusal>
        ensures number { outcome_number result ≡ hour_refusal (as_hour self) v }
        ensures hour { as_real_time (result_unwrap_or result (unchanged self)).hour ≡ interval_after (as_real_time self) v }
        ensures verdicts { (result_unwrap_or result (unchanged self)).verdicts ≡ hour_verdicts (as_hour self) v }
        ensures cells { (result_unwrap_or result (unchanged self)).hour.cells ≡ if_accepted (refusal_by false self.cells v) (written_by false self.cells v) self.cells }
    {
        self.called(false, v)
    }

    // A five-minute pass: the hour with its quarter hour cut once more and the verdicts, or 19, or the lowest of refusals 13 to 16 that applies.
    pub fn pass(self, v: Interval) -> Result<Answer, Refusal>
        ensures number { outcome_number result ≡ pass_refusal (as_real_time self) v }
        ensures hour { as_real_time (result_unwrap_or result (unchanged self)).hour ≡ pass_after (as_real_time self) v }
        ensures verdicts { (result_unwrap_or result (unchanged self)).verdicts ≡ pass_verdicts (as_real_time self) v }
        ensures cells { (result_unwrap_or result (unchanged self)).hour.cells ≡ if_accepted (refusal_by true self.cells v) (written_by true self.cells v) self.cells }
    {
        self.called(true, v)
    }
}
