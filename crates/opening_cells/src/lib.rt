// What an hour is opened from, read from lent slices of numbers: a block for each resource, and a number past a slice's end counts as 0; and an hour opened from
// them into its cells. The contracts cite the definitions of rules_state.
#![tactic(auto)]

ghost use Rattle.std.specs.Prelude.{true, ◌&&◌, leb, ◌++◌, ◌≡◌, ◌+◌, ◌-◌, ◌*◌, ◌≤◌, ◌<◌, pos, length};
ghost use Rattle.std.proofs.lemmas.List.Edits.{sets};
ghost use Rattle.std.specs.Int.Signed.{le_z};
ghost use Rattle.std.specs.Result.{result_unwrap_or};
ghost use Rattle.rules_number.specs.Order.{nat_of};
ghost use Rattle.rules_number.specs.Over.{all_to, listed};
ghost use Rattle.rules_curve.specs.Curves.{most_steps, steps_of, end_of, edges_good, prices_good, curve_of, curve_refusal, bid_refusal, default_refusal, checked_default, blank_curve, unless_refused};
ghost use Rattle.cost.specs.Cells.{ends_of};
ghost use Rattle.rules_curve.specs.Refusals.{outcome_number};
ghost use Rattle.rules_opening.specs.Openings.{is_known, opening_refusal};
ghost use Rattle.rules_opening.specs.Resources.{default_by, resource_refusal, row_of, source_refusal};
ghost use Rattle.rules_library.specs.Slices.{cell_at};
ghost use Rattle.rules_state.specs.Layout.{most_resources, most_portfolios, rows_from, curve_room, room_of_row, state_room, block_room};
ghost use Rattle.rules_state.specs.Calls.{called_number};
ghost use Rattle.rules_state.specs.OpenedInto.{into_answer, opened_into};
ghost use Rattle.rules_state.specs.States.{cell_of, curve_cells, row_cells};
ghost use Rattle.rules_state.specs.Takes.{if_accepted, opened_cells};
ghost use Rattle.rules_state.specs.Openings.{block_of, resource_in};
ghost use Rattle.opening_cells.specs.Hours.{lent_opening, lent_curve, rows_of, fresh_of, rows_refusal, hour_in};

use cost::Ends;
use rules_curve::{Curve, Refusal};
use rules_interval::Interval;
use rules_state::CallError;

// What an hour is opened from, in lent slices: `sellers` has the mark of each portfolio, `blocks` 80 numbers of each resource in turn. A number past the end of a slice
// is 0.
#[derive(Clone, Copy)]
pub struct LentOpening<'a> {
    pub month: i64,
    pub portfolios: usize,
    pub sellers: &'a [i64],
    pub resources: usize,
    pub blocks: &'a [i64],
}

// The block of resource r.
fn block_of(blocks: &[i64], r: usize) -> [i64; rules_state::BLOCK_ROOM]
    requires { r < most_resources }
    ensures { result ≡ block_of blocks.now r }
{
    let mut block = [0i64; rules_state::BLOCK_ROOM];
    cell_copies::fill(&mut block, blocks, rules_state::BLOCK_ROOM * r);
    block
}

// Whether the portfolio of each of the first n resources is known: else 10.
fn owners_known(blocks: &[i64], n: usize, portfolios: usize) -> bool
    requires { (n ≤ most_resources) × (portfolios ≤ most_portfolios) }
    ensures { result ≡ all_to (λ r. is_known portfolios (cell_at blocks.now (block_room * r))) n }
{
    let known = portfolios as i64;
    for r in 0..n {
        let portfolio = cells::cell_at(blocks, rules_state::BLOCK_ROOM * r);
        if portfolio < 0 {
            return false;
        }
        if known <= portfolio {
            return false;
        }
    }
    true
}

// Puts n zeros from the first cell on.
fn clear(state: &mut [i64], n: usize)
    ensures { state.new ≡ sets state.old 0 (listed (λ k. pos 0) n) }
{
    let room = number::at_most(n, state.len());
    state[..room].fill(0);
}

// Puts n numbers in turn from a cell on, each `width` after the one before it, as whole numbers.
fn put_each(state: &mut [i64], at: usize, numbers: &[i64], width: usize, n: usize)
    requires { (at ≤ state_room) × ((width ≤ block_room) × (n ≤ most_resources)) }
    ensures { state.new ≡ sets state.old at (listed (λ k. cell_of (nat_of (cell_at numbers.now (width * k)))) n) }
{
    for k in 0..n {
        cells::put_whole(state, at + k, cells::whole_at(numbers, width * k));
    }
}

// Puts a fresh standing, a fresh quarter hour, and who owns what: zeros first, and over them what is known.
fn put_fresh(given: &LentOpening, state: &mut [i64])
    requires { (given.now.portfolios ≤ most_portfolios) × (given.now.resources ≤ most_resources) }
    ensures { state.new ≡ sets state.old 0 (fresh_of given.now.portfolios given.now.sellers.now given.now.resources given.now.blocks.now) }
{
    clear(state, rules_state::ROWS_FROM);
    cells::put_whole(state, rules_state::MARKET_FROM, given.resources as u64);
    put_each(
        state,
        rules_state::MARKET_FROM + 1,
        given.blocks,
        rules_state::BLOCK_ROOM,
        given.resources,
    );
    put_each(
        state,
        rules_state::MARKET_FROM + 1 + Interval::MAX_RESOURCES,
        given.sellers,
        1,
        given.portfolios,
    );
}

// A curve of a block as it is read: where it starts, how many steps it has, and end and price of each in turn.
#[derive(Clone, Copy)]
struct LentCurve<'a> {
    start: i64,
    count: usize,
    steps: &'a [i64],
}

// Whether no edge calls for refusal 2.
fn edges_good(raw: &LentCurve) -> bool
    requires { (raw.now.count ≤ most_steps) × (2 * most_steps ≤ length raw.now.steps.now) }
    ensures { result ≡ edges_good (lent_curve raw.now) }
{
    if raw.start < 0 {
        return false;
    }
    let mut p = raw.start;
    for i in 0..raw.count {
        let end = raw.steps[2 * i];
        if end <= p {
            return false;
        }
        p = end;
    }
    p <= Curve::MAX_QUANTITY
}

// Whether no price calls for refusal 3.
fn prices_good(raw: &LentCurve, low: i64, top: i64) -> bool
    requires { (raw.now.count ≤ most_steps) × ((2 * most_steps ≤ length raw.now.steps.now) × (le_z low top ≡ true)) }
    ensures { result ≡ prices_good low top (lent_curve raw.now) }
{
    let mut p = low;
    for i in 0..raw.count {
        let price = raw.steps[2 * i + 1];
        if price < p {
            return false;
        }
        p = price;
    }
    p <= top
}

// A curve of so many steps at most, with prices from low to top.
fn curve_outcome(raw: &LentCurve, most: usize, low: i64, top: i64) -> Result<(), Refusal>
    requires { (most ≤ most_steps) × ((2 * most_steps ≤ length raw.now.steps.now) × (le_z low top ≡ true)) }
    ensures { outcome_number result ≡ curve_refusal most low top (lent_curve raw.now) }
{
    if raw.count == 0 {
        return Err(Refusal::StepCount);
    }
    if most < raw.count {
        return Err(Refusal::StepCount);
    }
    if !edges_good(raw) {
        return Err(Refusal::Edge);
    }
    if !prices_good(raw, low, top) {
        return Err(Refusal::Price);
    }
    Ok(())
}

// A bid, by month since the rule took effect.
fn bid_outcome(raw: &LentCurve, month: u64) -> Result<(), Refusal>
    requires { 2 * most_steps ≤ length raw.now.steps.now }
    ensures { outcome_number result ≡ bid_refusal month (lent_curve raw.now) }
{
    curve_outcome(
        raw,
        Curve::MAX_BID_STEPS,
        Curve::LOWEST_BID,
        curve::highest_bid(month),
    )
}

// Where it ends: at its last step's end, or at its start where it has no step.
fn end_at(raw: &LentCurve) -> u64
    requires { (raw.now.count ≤ most_steps) × (2 * most_steps ≤ length raw.now.steps.now) }
    ensures { result ≡ end_of (nat_of raw.now.start) (steps_of (curve_of (lent_curve raw.now))) }
{
    if raw.count == 0 {
        return number::whole(raw.start);
    }
    number::whole(raw.steps[2 * (raw.count - 1)])
}

// Whether it lies inside a default curve with these ends: else 11.
fn lies_inside(raw: &LentCurve, default: Ends) -> bool
    requires { (raw.now.count ≤ most_steps) × (2 * most_steps ≤ length raw.now.steps.now) }
    ensures { let bid = curve_of (lent_curve raw.now) in result ≡ (leb default.start bid.start && leb (end_of bid.start (steps_of bid)) default.end) }
{
    if number::whole(raw.start) < default.start {
        return false;
    }
    end_at(raw) <= default.end
}

// Its cells.
fn curve_of(raw: &LentCurve) -> [i64; rules_state::CURVE_ROOM]
    requires { (raw.now.count ≤ most_steps) × (2 * most_steps ≤ length raw.now.steps.now) }
    ensures { result ≡ curve_cells (curve_of (lent_curve raw.now)) }
{
    let mut curve = [0i64; rules_state::CURVE_ROOM];
    curve[0] = raw.count as i64;
    curve[1] = number::max(raw.start, 0);
    for k in 0..raw.count {
        curve[2 + k] = number::max(raw.steps[2 * k], 0);
        curve[2 + Curve::MAX_STEPS + k] = raw.steps[2 * k + 1];
    }
    curve
}

// Puts the default curve of a pack, or answers the lowest of refusals 1 to 3 that applies.
fn pack_in(raw: &LentCurve, cells: &mut [i64; rules_state::CURVE_ROOM]) -> Result<Ends, Refusal>
    requires { 2 * most_steps ≤ length raw.now.steps.now }
    ensures number { outcome_number result ≡ default_refusal (lent_curve raw.now) }
    ensures ends { result_unwrap_or result (ends_of blank_curve) ≡ ends_of (checked_default (lent_curve raw.now)) }
    ensures cells { cells.new ≡ if_accepted (default_refusal (lent_curve raw.now)) (curve_cells (curve_of (lent_curve raw.now))) cells.old }
{
    curve_outcome(
        raw,
        Curve::MAX_STEPS,
        Curve::LOWEST_DEFAULT,
        Curve::HIGHEST_DEFAULT,
    )?;
    *cells = curve_of(raw);
    Ok(Ends {
        start: number::whole(raw.start),
        end: end_at(raw),
    })
}

// Puts the default curve of a block, from its costs or its pack, or answers its refusal.
fn default_in(block: &[i64], cells: &mut [i64; rules_state::CURVE_ROOM]) -> Result<Ends, Refusal>
    requires { length block.now ≡ block_room }
    ensures number { let x = resource_in block.now in outcome_number result ≡ source_refusal x.source x }
    ensures ends { let x = resource_in block.now in result_unwrap_or result (ends_of blank_curve) ≡ ends_of (unless_refused (source_refusal x.source x) (default_by x.source x)) }
    ensures cells { let x = resource_in block.now in cells.new ≡ if_accepted (source_refusal x.source x) (curve_cells (default_by x.source x)) cells.old }
{
    if cells::cell_at(block, 25) == 0 {
        return cost::default_cells(
            cells::whole_at(block, 26) as usize,
            &block[27..],
            &block[49..],
            cells,
        );
    }
    let pack = LentCurve {
        start: cells::cell_at(block, 56),
        count: cells::whole_at(block, 57) as usize,
        steps: &block[58..],
    };
    pack_in(&pack, cells)
}

// Puts the row of a block from a cell on, a bid and the cells of its default curve, or answers its first refusal: 11 where the bid goes past the default curve.
fn put_block(month: u64, block: &[i64], at: usize, state: &mut [i64]) -> Result<(), Refusal>
    requires { (length block.now ≡ block_room) × (at + room_of_row ≤ state_room) }
    ensures number { outcome_number result ≡ resource_refusal month (resource_in block.now) }
    ensures room { resource_refusal month (resource_in block.now) ≡ 0 → length (row_cells (row_of (resource_in block.now))) ≡ room_of_row }
    ensures state { state.new ≡ if_accepted (resource_refusal month (resource_in block.now)) (sets state.old at (row_cells (row_of (resource_in block.now)))) state.old }
{
    let bid = LentCurve {
        start: cells::cell_at(block, 1),
        count: cells::whole_at(block, 2) as usize,
        steps: &block[3..],
    };
    bid_outcome(&bid, month)?;
    let mut curve = [0i64; rules_state::CURVE_ROOM];
    let default = default_in(block, &mut curve)?;
    if !lies_inside(&bid, default) {
        return Err(Refusal::OutsideDefault);
    }
    cell_copies::put_all(state, at, &curve_of(&bid));
    cell_copies::put_all(state, at + rules_state::CURVE_ROOM, &curve);
    Ok(())
}

// Puts the row of resource r of those that begin at a cell, or answers its first refusal. A block that goes past the end is copied first.
fn put_resource(
    month: u64,
    blocks: &[i64],
    r: usize,
    from: usize,
    state: &mut [i64],
) -> Result<(), Refusal>
    requires { (r < most_resources) × (from ≤ rows_from) }
    ensures number { outcome_number result ≡ resource_refusal month (resource_in (block_of blocks.now r)) }
    ensures room { resource_refusal month (resource_in (block_of blocks.now r)) ≡ 0 → length (row_cells (row_of (resource_in (block_of blocks.now r)))) ≡ room_of_row }
    ensures state { state.new ≡ if_accepted (resource_refusal month (resource_in (block_of blocks.now r))) (sets state.old (from + room_of_row * r) (row_cells (row_of (resource_in (block_of blocks.now r))))) state.old }
{
    let at = from + rules_state::ROW_ROOM * r;
    let first = rules_state::BLOCK_ROOM * r;
    let past = first + rules_state::BLOCK_ROOM;
    if blocks.len() < past {
        let block = block_of(blocks, r);
        return put_block(month, &block, at, state);
    }
    put_block(month, &blocks[first..past], at, state)
}

// Puts the rows of the resources from a cell on, as far as none is refused, or answers the first refusal: of one resource, then, nothing is put.
fn put_resources(given: &LentOpening, from: usize, state: &mut [i64]) -> Result<(), Refusal>
    requires { (given.now.resources ≤ most_resources) × (from ≤ rows_from) }
    ensures number { outcome_number result ≡ rows_refusal given.now }
    ensures rows { let n = given.now.resources in rows_refusal given.now ≡ 0 → (length (rows_of given.now.blocks.now n) ≡ room_of_row * n) × (state.new ≡ sets state.old from (rows_of given.now.blocks.now n)) }
    ensures one { given.now.resources ≡ 1 → 0 < rows_refusal given.now → state.new ≡ state.old }
{
    let month = number::whole(given.month);
    for r in 0..given.resources {
        put_resource(month, given.blocks, r, from, state)?;
    }
    Ok(())
}

// A row that is refused puts nothing, so an hour of one resource gets its row first.
fn open_one(given: &LentOpening, state: &mut [i64]) -> Result<(), Refusal>
    requires { (given.now.portfolios ≤ most_portfolios) × (given.now.resources ≡ 1) }
    ensures number { outcome_number result ≡ rows_refusal given.now }
    ensures state { state.new ≡ if_accepted (rows_refusal given.now) (hour_in given.now state.old) state.old }
{
    put_resources(given, rules_state::ROWS_FROM, state)?;
    put_fresh(given, state);
    Ok(())
}

// An hour of more has its rows put into cells of its own first.
fn open_in<const CELLS: usize>(given: &LentOpening, state: &mut [i64]) -> Result<(), Refusal>
    requires { (given.now.portfolios ≤ most_portfolios) × ((given.now.resources ≤ most_resources) × ((room_of_row * given.now.resources ≤ CELLS) × (CELLS ≤ room_of_row * most_resources))) }
    ensures number { outcome_number result ≡ rows_refusal given.now }
    ensures state { state.new ≡ if_accepted (rows_refusal given.now) (hour_in given.now state.old) state.old }
{
    let mut rows = [0i64; CELLS];
    put_resources(given, 0, &mut rows)?;
    put_fresh(given, state);
    cell_copies::put_all(
        state,
        rules_state::ROWS_FROM,
        &rows[..rules_state::ROW_ROOM * given.resources],
    );
    Ok(())
}

// The cells of the rows of few resources, of half as many as an hour may have, and of all.
const FEW: usize = 8;

const FEW_CELLS: usize = FEW * rules_state::ROW_ROOM;

const HALF: usize = 32;

const HALF_CELLS: usize = HALF * rules_state::ROW_ROOM;

const ALL_CELLS: usize = Interval::MAX_RESOURCES * rules_state::ROW_ROOM;

// By the number of resources: clearing cells for all costs more than the rest of a small opening.
fn open_rows(given: &LentOpening, state: &mut [i64]) -> Result<(), Refusal>
    requires { (given.now.portfolios ≤ most_portfolios) × (given.now.resources ≤ most_resources) }
    ensures number { outcome_number result ≡ rows_refusal given.now }
    ensures state { state.new ≡ if_accepted (rows_refusal given.now) (hour_in given.now state.old) state.old }
{
    if given.resources == 1 {
        return open_one(given, state);
    }
    if given.resources <= FEW {
        return open_in::<FEW_CELLS>(given, state);
    }
    if given.resources <= HALF {
        return open_in::<HALF_CELLS>(given, state);
    }
    open_in::<ALL_CELLS>(given, state)
}

// Opens an hour into its cells, or answers the first refusal and leaves them as they were: all is checked before the first of them is written.
fn opened(given: &LentOpening, state: &mut [i64]) -> Result<(), Refusal>
    ensures number { outcome_number result ≡ opening_refusal (lent_opening given.now) }
    ensures state { state.new ≡ if_accepted (opening_refusal (lent_opening given.now)) (sets state.old 0 (opened_cells (lent_opening given.now))) state.old }
{
    if !opening::counts_good(given.month, given.portfolios, given.resources) {
        return Err(Refusal::Counts);
    }
    if !opening::sellers_good(given.sellers, given.portfolios) {
        return Err(Refusal::Membership);
    }
    if !owners_known(given.blocks, given.resources, given.portfolios) {
        return Err(Refusal::Membership);
    }
    open_rows(given, state)
}

// Opens an hour into lent cells. Too few cells for its resources are answered as such; they, and those of an opening that is refused, are left as they were, and so
// are cells past those of its resources.
pub fn open_into(given: &LentOpening, state: &mut [i64]) -> Result<(), CallError>
    ensures number { called_number result ≡ into_answer state.old (lent_opening given.now) }
    ensures state { state.new ≡ opened_into (lent_opening given.now) state.old }
{
    let rows = number::at_most(given.resources, Interval::MAX_RESOURCES);
    if state.len() < rules_state::ROWS_FROM + rules_state::ROW_ROOM * rows {
        return Err(CallError::TooShort);
    }
    opened(given, state).map_err(CallError::Refused)
}
