// The part of an interval in a text (paper 01, Text), read at an offset of a lent text and taken in the hour of lent cells.
// The contracts cite specs/Taken and the definitions of rules_parts, rules_hour and rules_state.
#![tactic(auto)]

ghost use Rattle.std.specs.Prelude.{◌≡◌, ◌+◌, ◌-◌, ◌*◌, ◌≤◌, min, length, drop, replicate, pos, [], IfOk};
ghost use Rattle.rules_text.specs.Numbers.{lines};
ghost use Rattle.rules_text.specs.Tables.{due, single};
ghost use Rattle.rules_text.specs.Offsets.{bytes_of};
ghost use Rattle.rules_parts.specs.Parts.{parameter_of, read_interval};
ghost use Rattle.rules_state.specs.States.{market_in};
ghost use Rattle.rules_state.specs.Takes.{if_accepted};
ghost use Rattle.interval_part.specs.Taken.{shown_value, PartRead, taken_whole, state_whole, verdicts_whole, left_whole, taken_by, state_by, verdicts_by, left_by};

use curve::refusal_number;
use factor_table::factors_into;
use interval::LentInterval;
use rules_curve::Refusal;
use rules_interval::Interval;
use rules_state::{MARKET_FROM, ROWS_FROM, VERDICT_ROOM};
use taking::take_into;
use text_names::line_is;
use text_rows::single_at;
use text_tables::{marks_at, outputs_at};

// An hour of fewer resources needs fewer cells for outputs and factors: clearing all of them costs more than the rest of a small part.
const ONE_RESOURCE: u64 = 1;

const ONE_OUTPUTS: usize = 4;

const ONE_FACTORS: usize = 32;

const FEW_RESOURCES: u64 = 8;

const FEW_OUTPUTS: usize = 32;

const FEW_FACTORS: usize = 256;

const HALF_RESOURCES: u64 = 32;

const HALF_OUTPUTS: usize = 128;

const HALF_FACTORS: usize = 1024;

const ALL_OUTPUTS: usize = 256;

const ALL_FACTORS: usize = Interval::MAX_FACTORS;

// What taking an interval's part answers: the number of its last line, the offset of the next and how many constraints it has; or the number of the refusal and of its line.
#[derive(Clone, Copy)]
pub struct PartTaken {
    pub number: u64,
    pub line: usize,
    pub next: usize,
    pub constraints: usize,
}

// What is answered of too few cells for an hour: the number of no refusal.
pub const TOO_SHORT: u64 = 255;

// A text has at most so many lines: a larger number before a part counts as that.
const MAX_LINES: usize = 65_536;

// What a missing parameter means (paper 02, 2.5: "Missing now means 0").
pub const MISSING_PARAMETER: i64 = 0;

// The value of a line that is due, with its line's number and the offset of the next.
#[derive(Clone, Copy)]
struct Value {
    value: i64,
    line: usize,
    next: usize,
}

// What an interval's part says beside its tables, the number of its last line and the offset of the next.
#[derive(Clone, Copy)]
struct Part {
    constraints: usize,
    resources: usize,
    parameter: i64,
    line: usize,
    next: usize,
}

// The value of the line at an offset before which n lines stand, or the number of the faulty line.
fn value_at(s: &[u8], at: usize, n: usize) -> Result<Value, usize>
    requires { n ≤ 70000 + length s.now }
    ensures result_value { shown_value s.now result ≡ due single n (lines (drop at s.now)) }
    ensures next_value { IfOk result (λ v. v.next ≡ at + bytes_of (v.line - n) (lines (drop at s.now))) }
{
    let Some(row) = single_at(s, at) else {
        return Err(n + 1);
    };
    Ok(Value {
        value: row.v[0],
        line: n + 1,
        next: row.next,
    })
}

// The parameter at an offset before which n lines stand: "-" alone is missing.
fn parameter_at(s: &[u8], at: usize, n: usize) -> Result<Value, usize>
    requires { n ≤ 70000 + length s.now }
    ensures result_value { shown_value s.now result ≡ due parameter_of n (lines (drop at s.now)) }
    ensures next_value { IfOk result (λ v. v.next ≡ at + bytes_of (v.line - n) (lines (drop at s.now))) }
{
    let Some(next) = line_is(s, at, b"-\n") else {
        return value_at(s, at, n);
    };
    Ok(Value {
        value: MISSING_PARAMETER,
        line: n + 1,
        next,
    })
}

// The interval's part at an offset before which `line` lines stand, its tables into blank cells; or the number of the faulty line.
// Outputs and factors past their cells are not kept.
fn part_at(
    s: &[u8],
    at: usize,
    line: usize,
    shadow: &mut [i64],
    outputs: &mut [i64],
    factors: &mut [i64],
) -> Result<Part, usize>
    requires shadow { shadow.old ≡ replicate 32 (pos 0) }
    requires outputs { outputs.old ≡ replicate (length outputs.old) (pos 0) }
    requires factors { (factors.old ≡ replicate (length factors.old) (pos 0)) × (length factors.old ≤ 2048) }
    ensures reading { PartRead (length outputs.old) (length factors.old) s.now result shadow.new outputs.new factors.new (read_interval (min line 65536) (lines (drop at s.now))) }
    ensures after { IfOk result (λ p. p.next ≡ at + bytes_of (p.line - min line 65536) (lines (drop at s.now))) }
{
    let line = number::at_most(line, MAX_LINES);
    let Some(at) = line_is(s, at, b"constraint shadow\n") else {
        return Err(line + 1);
    };
    let constraints = marks_at(s, at, shadow);
    let m = constraints.count;
    let line = line + 1 + m;
    let Some(at) = line_is(
        s,
        constraints.next,
        b"resource lmp dispatch available floor\n",
    ) else {
        return Err(line + 1);
    };
    let rows = outputs_at(s, at, outputs);
    let n = rows.count;
    let line = line + 1 + n;
    let Some(at) = line_is(s, rows.next, b"resource constraint factor\n") else {
        return Err(line + 1);
    };
    let table = factors_into(s, at, n, m, factors);
    let line = line + 1 + table.count;
    let Some(at) = line_is(s, table.next, b"parameter\n") else {
        return Err(line + 1);
    };
    let parameter = parameter_at(s, at, line + 1)?;
    Ok(Part {
        constraints: m,
        resources: n,
        parameter: parameter.value,
        line: parameter.line,
        next: parameter.next,
    })
}

// The interval's part at an offset before which `line` lines stand, taken in the hour of the state, with blank cells for the outputs and factors of the hour's
// resources.
fn part_into(
    s: &[u8],
    at: usize,
    line: usize,
    outputs: &mut [i64],
    factors: &mut [i64],
    state: &mut [i64],
    verdicts: &mut [i64; VERDICT_ROOM],
) -> PartTaken
    requires blank { (outputs.old ≡ replicate (length outputs.old) (pos 0)) × (factors.old ≡ replicate (length factors.old) (pos 0)) }
    requires room { (min (market_in state.old).resources 64 * 4 ≤ length outputs.old) × ((min (market_in state.old).resources 64 * 32 ≤ length factors.old) × (length factors.old ≤ 2048)) }
    ensures answer { result ≡ taken_whole state.old at (min line 65536) (lines (drop at s.now)) (read_interval (min line 65536) (lines (drop at s.now))) }
    ensures state { state.new ≡ state_whole state.old (read_interval (min line 65536) (lines (drop at s.now))) }
    ensures verdicts { verdicts.new ≡ verdicts_whole state.old verdicts.old (read_interval (min line 65536) (lines (drop at s.now))) }
    ensures rest { if_accepted result.number (lines (drop result.next s.now)) [] ≡ left_whole state.old (read_interval (min line 65536) (lines (drop at s.now))) }
{
    let mut shadow = [0i64; Interval::MAX_CONSTRAINTS];
    let part = match part_at(s, at, line, &mut shadow, outputs, factors) {
        Ok(part) => part,
        Err(line) => {
            return PartTaken {
                number: refusal_number(Refusal::Form),
                line,
                next: 0,
                constraints: 0,
            };
        }
    };
    let asked = LentInterval {
        constraints: part.constraints,
        shadow: &shadow,
        resources: part.resources,
        outputs,
        factors,
        parameter: part.parameter,
    };
    if let Err(refusal) = take_into(state, &asked, verdicts) {
        return PartTaken {
            number: refusal_number(refusal),
            line: part.line,
            next: 0,
            constraints: 0,
        };
    }
    PartTaken {
        number: 0,
        line: part.line,
        next: part.next,
        constraints: part.constraints,
    }
}

// The same, with so many cells for outputs and factors.
fn part_with<const OUTPUTS: usize, const FACTORS: usize>(
    s: &[u8],
    at: usize,
    line: usize,
    state: &mut [i64],
    verdicts: &mut [i64; VERDICT_ROOM],
) -> PartTaken
    requires { (min (market_in state.old).resources 64 * 4 ≤ OUTPUTS) × ((min (market_in state.old).resources 64 * 32 ≤ FACTORS) × ((OUTPUTS ≤ 256) × (FACTORS ≤ 2048))) }
    ensures answer { result ≡ taken_whole state.old at (min line 65536) (lines (drop at s.now)) (read_interval (min line 65536) (lines (drop at s.now))) }
    ensures state { state.new ≡ state_whole state.old (read_interval (min line 65536) (lines (drop at s.now))) }
    ensures verdicts { verdicts.new ≡ verdicts_whole state.old verdicts.old (read_interval (min line 65536) (lines (drop at s.now))) }
    ensures rest { if_accepted result.number (lines (drop result.next s.now)) [] ≡ left_whole state.old (read_interval (min line 65536) (lines (drop at s.now))) }
{
    let mut outputs = [0i64; OUTPUTS];
    let mut factors = [0i64; FACTORS];
    part_into(s, at, line, &mut outputs, &mut factors, state, verdicts)
}

// The same, with cells for as many outputs and factors as the hour's resources need.
fn part_by_count(
    s: &[u8],
    at: usize,
    line: usize,
    state: &mut [i64],
    verdicts: &mut [i64; VERDICT_ROOM],
) -> PartTaken
    ensures answer { result ≡ taken_whole state.old at (min line 65536) (lines (drop at s.now)) (read_interval (min line 65536) (lines (drop at s.now))) }
    ensures state { state.new ≡ state_whole state.old (read_interval (min line 65536) (lines (drop at s.now))) }
    ensures verdicts { verdicts.new ≡ verdicts_whole state.old verdicts.old (read_interval (min line 65536) (lines (drop at s.now))) }
    ensures rest { if_accepted result.number (lines (drop result.next s.now)) [] ≡ left_whole state.old (read_interval (min line 65536) (lines (drop at s.now))) }
{
    let n = cells::whole_at(state, MARKET_FROM);
    if n <= ONE_RESOURCE {
        return part_with::<ONE_OUTPUTS, ONE_FACTORS>(s, at, line, state, verdicts);
    }
    if n <= FEW_RESOURCES {
        return part_with::<FEW_OUTPUTS, FEW_FACTORS>(s, at, line, state, verdicts);
    }
    if n <= HALF_RESOURCES {
        return part_with::<HALF_OUTPUTS, HALF_FACTORS>(s, at, line, state, verdicts);
    }
    part_with::<ALL_OUTPUTS, ALL_FACTORS>(s, at, line, state, verdicts)
}

// The interval's part at an offset before which `line` lines stand, read and taken in the hour of the state: its cuts and the count go into the state, and its verdicts to
// the front of `verdicts`; or the refusal, and both as they were. A state of fewer cells than an hour has before its rows is answered by 255.
pub fn part_taken(
    s: &[u8],
    at: usize,
    line: usize,
    state: &mut [i64],
    verdicts: &mut [i64; VERDICT_ROOM],
) -> PartTaken
    ensures answer { result ≡ taken_by state.old at (min line 65536) (lines (drop at s.now)) (read_interval (min line 65536) (lines (drop at s.now))) }
    ensures state { state.new ≡ state_by state.old (read_interval (min line 65536) (lines (drop at s.now))) }
    ensures verdicts { verdicts.new ≡ verdicts_by state.old verdicts.old (read_interval (min line 65536) (lines (drop at s.now))) }
    ensures rest { if_accepted result.number (lines (drop result.next s.now)) [] ≡ left_by state.old (read_interval (min line 65536) (lines (drop at s.now))) }
{
    if state.len() < ROWS_FROM {
        return PartTaken {
            number: TOO_SHORT,
            line: 0,
            next: 0,
            constraints: 0,
        };
    }
    part_by_count(s, at, line, state, verdicts)
}
