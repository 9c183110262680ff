// An hour in numbers for programs in other languages, under C names: the caller keeps its state in a lent slice, and every content of it has a meaning. The contracts
// cite the definitions of rules_state.
#![tactic(auto)]

ghost use Rattle.std.specs.Prelude.{◌≡◌};
ghost use Rattle.rules_state.specs.Layout.{state_room};
ghost use Rattle.rules_state.specs.Openings.{opening_in};
ghost use Rattle.rules_state.specs.Intervals.{interval_in};
ghost use Rattle.rules_state.specs.Calls.{open_answer, state_opened, interval_answer, state_after_interval, verdicts_after_interval, pass_answer, state_after_pass, verdicts_after_pass};
ghost use Rattle.noskjerf_hour.specs.Calls.{lent_in, answer_by, state_by, verdicts_by};

use interval::LentInterval;
use opening_cells::LentOpening;
use rules_state::CallError;

// How many numbers the state of an hour has.
#[unsafe(no_mangle)]
pub extern "C" fn noskjerf_state_room() -> usize
    ensures { result ≡ state_room }
{
    rules_state::STATE_ROOM
}

// Opens an hour. `sellers` has the mark of each portfolio, and `blocks` 80 numbers of each resource in turn; numbers past their ends count as 0. Answers 0 and puts
// the opened hour into the state; or answers the number of a refusal, or -1 where the state has too few numbers, and leaves it as it was.
#[unsafe(no_mangle)]
pub extern "C" fn noskjerf_open(
    month: i64,
    portfolios: usize,
    sellers: &[i64],
    resources: usize,
    blocks: &[i64],
    state: &mut [i64],
) -> i64
    ensures answer { result ≡ open_answer state.old (opening_in month portfolios sellers.now resources blocks.now) }
    ensures state { state.new ≡ state_opened state.old (opening_in month portfolios sellers.now resources blocks.now) }
{
    if state.len() < rules_state::STATE_ROOM {
        return -1;
    }
    let mut opened = [0i64; rules_state::STATE_ROOM];
    let given = LentOpening {
        month,
        portfolios,
        sellers,
        resources,
        blocks,
    };
    match opening_cells::open_into(&given, &mut opened) {
        Ok(()) => {
            cell_copies::put_all(state, 0, &opened);
            0
        }
        Err(CallError::Refused(refusal)) => curve::refusal_number(refusal) as i64,
        Err(CallError::TooShort) => -1,
    }
}

// A pass, or an interval, of these numbers.
fn called(pass: bool, state: &mut [i64], asked: &LentInterval, verdicts: &mut [i64]) -> i64
    ensures answer { result ≡ answer_by pass state.old verdicts.old (lent_in asked.now) }
    ensures state { state.new ≡ state_by pass state.old verdicts.old (lent_in asked.now) }
    ensures verdicts { verdicts.new ≡ verdicts_by pass state.old verdicts.old (lent_in asked.now) }
{
    if state.len() < rules_state::STATE_ROOM {
        return -1;
    }
    if verdicts.len() < rules_state::VERDICT_ROOM {
        return -1;
    }
    let mut found = taking::none_found();
    match hour_cells::call_into(state, pass, asked, &mut found) {
        Ok(()) => {
            cell_copies::put_all(verdicts, 0, &found);
            0
        }
        Err(CallError::Refused(refusal)) => curve::refusal_number(refusal) as i64,
        Err(CallError::TooShort) => -1,
    }
}

// Takes an interval. `outputs` has locational price, dispatch, available and floor of each resource in turn, `factors` the factor of resource r on constraint c at
// 32 r + c; numbers past a slice's end count as 0. Answers 0, puts the hour after it into the state and the verdicts into `verdicts`; or answers the number of a
// refusal, or -1 where the state or `verdicts` has too few numbers, and leaves both as they were.
#[unsafe(no_mangle)]
pub extern "C" fn noskjerf_interval<'a>(
    state: &mut [i64],
    constraints: usize,
    shadow: &'a [i64],
    resources: usize,
    outputs: &'a [i64],
    factors: &'a [i64],
    parameter: i64,
    verdicts: &mut [i64],
) -> i64
    ensures answer { result ≡ interval_answer state.old verdicts.old (interval_in constraints shadow.now resources outputs.now factors.now parameter) }
    ensures state { state.new ≡ state_after_interval state.old verdicts.old (interval_in constraints shadow.now resources outputs.now factors.now parameter) }
    ensures verdicts { verdicts.new ≡ verdicts_after_interval state.old verdicts.old (interval_in constraints shadow.now resources outputs.now factors.now parameter) }
{
    let asked = LentInterval {
        constraints,
        shadow,
        resources,
        outputs,
        factors,
        parameter,
    };
    called(false, state, &asked, verdicts)
}

// Takes a five-minute pass, with what an interval is taken with. Answers 0, puts the quarter hour after it into the state and the verdicts into `verdicts`; or answers
// the number of a refusal, or -1 where the state or `verdicts` has too few numbers, and leaves both as they were.
#[unsafe(no_mangle)]
pub extern "C" fn noskjerf_pass<'a>(
    state: &mut [i64],
    constraints: usize,
    shadow: &'a [i64],
    resources: usize,
    outputs: &'a [i64],
    factors: &'a [i64],
    parameter: i64,
    verdicts: &mut [i64],
) -> i64
    ensures answer { result ≡ pass_answer state.old verdicts.old (interval_in constraints shadow.now resources outputs.now factors.now parameter) }
    ensures state { state.new ≡ state_after_pass state.old verdicts.old (interval_in constraints shadow.now resources outputs.now factors.now parameter) }
    ensures verdicts { verdicts.new ≡ verdicts_after_pass state.old verdicts.old (interval_in constraints shadow.now resources outputs.now factors.now parameter) }
{
    let asked = LentInterval {
        constraints,
        shadow,
        resources,
        outputs,
        factors,
        parameter,
    };
    called(true, state, &asked, verdicts)
}
