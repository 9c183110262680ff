// Why an interval cuts the resources of an hour or not, and how many sellers a verdict names, for programs in other languages, under C names: state and verdicts are only
// read. The contracts cite the definitions of rules_state.
#![tactic(auto)]

ghost use Rattle.std.specs.Prelude.{◌≡◌};
ghost use Rattle.rules_state.specs.Intervals.{interval_in};
ghost use Rattle.rules_state.specs.Calls.{why_answer, causes_after, sellers_answer};

use interval::LentInterval;
use rules_interval::Interval;

// Why an interval, with what noskjerf_interval takes, cuts each resource or not. Answers 0 and puts four numbers of each of 64 resources into `causes`: 1 where it is
// cut, else 0; its component; its competitive price; its floor price, 0 where it isn't cut. Or answers the number of a refusal, 13 to 16, or -1 where the state or
// `causes` has too few numbers, and leaves `causes` as it was.
#[unsafe(no_mangle)]
pub extern "C" fn noskjerf_why<'a>(
    state: &'a [i64],
    constraints: usize,
    shadow: &'a [i64],
    resources: usize,
    outputs: &'a [i64],
    factors: &'a [i64],
    parameter: i64,
    causes: &mut [i64],
) -> i64
    ensures answer { result ≡ why_answer state.now causes.old (interval_in constraints shadow.now resources outputs.now factors.now parameter) }
    ensures causes { causes.new ≡ causes_after state.now causes.old (interval_in constraints shadow.now resources outputs.now factors.now parameter) }
{
    if state.len() < rules_state::STATE_ROOM {
        return -1;
    }
    if causes.len() < rules_state::CAUSE_ROOM {
        return -1;
    }
    let asked = LentInterval {
        constraints,
        shadow,
        resources,
        outputs,
        factors,
        parameter,
    };
    match cutting::causes_into(state, &asked, causes) {
        Ok(()) => 0,
        Err(refusal) => curve::refusal_number(refusal) as i64,
    }
}

// How many sellers the verdict on constraint c names, of the verdicts that an interval or a pass put; -1 where `verdicts` has too few numbers.
#[unsafe(no_mangle)]
pub extern "C" fn noskjerf_sellers(verdicts: &[i64], c: usize) -> i64
    ensures { result ≡ sellers_answer verdicts.now c }
{
    if verdicts.len() < rules_state::VERDICT_ROOM {
        return -1;
    }
    if Interval::MAX_CONSTRAINTS <= c {
        return 0;
    }
    let named = cells::whole_at(verdicts, rules_state::VERDICT_WIDTH * c + 3);
    verdict::sellers_named((named % 4_294_967_296) as u32) as i64
}
