// The part of a text that opens an hour (paper 01, Text), read into blocks of numbers and opened into the cells of an hour. The contracts cite specs/Blocks,
// specs/Parts and the definitions of rules_parts and rules_state.
#![tactic(auto)]

mod tables;

ghost use Rattle.std.specs.Prelude.{◌≡◌, ◌+◌, ◌-◌, ◌*◌, ◌≤◌, min, length, drop, IfOk};
ghost use Rattle.rules_text.specs.Numbers.{lines};
ghost use Rattle.rules_text.specs.Offsets.{bytes_of};
ghost use Rattle.rules_parts.specs.Parts.{read_opening};
ghost use Rattle.rules_state.specs.Openings.{opening_in};
ghost use Rattle.text_blocks.specs.Blocks.{owner_cells, owner_rows, blocks_put, last_three, blocks_of, opening_with};
ghost use Rattle.opening_part.specs.Parts.{read_cells, last_four, headed_four, faulty_at, part_answer, part_state, lines_then, Opened};

use crate::tables::{TableEnd, charges_into, groups_into};
use opening_cells::{LentOpening, open_into};
use rules_interval::Interval;
use rules_path::Market;
use rules_state::CallError;
use text_lines::row_at;
use text_names::line_is;
use text_tables::{owners_at, sellers_at};

// What opening the part of a text answers: 17 and the number of the faulty line; the opening's refusal and the number of the part's last line; or 0, that
// number, the offset of the next line and the number of resources. Where the cells are too few for these, `TOO_SHORT`, the number of the last line and how many they are.
#[derive(Clone, Copy)]
pub struct PartOpened {
    pub number: u64,
    pub line: usize,
    pub next: usize,
    pub resources: usize,
}

// The number that says so: no refusal has it.
pub const TOO_SHORT: u64 = 255;

// What stands in the part before its resources: the month, how many portfolios there are, and the mark of each.
#[derive(Clone, Copy)]
struct Head<'a> {
    month: i64,
    portfolios: usize,
    sellers: &'a [i64],
}

// A part of one resource, or of few, has its blocks in a smaller array.
const FEW: usize = 8;

const ONE_ROOM: usize = rules_state::BLOCK_ROOM;

const FEW_ROOM: usize = FEW * rules_state::BLOCK_ROOM;

const ROOM: usize = Interval::MAX_RESOURCES * rules_state::BLOCK_ROOM;

// Portfolio and start of each resource in turn.
const OWNERS_ROOM: usize = 2 * Interval::MAX_RESOURCES;

// A text of at most so many bytes has most likely one resource.
pub const SHORT_BYTES: usize = 1024;

const ONE_OWNER: usize = 2;

// Where the tables stand in a resource's block.
const STEPS_FROM: usize = 2;

const POINTS_FROM: usize = 26;

const CHARGES_FROM: usize = 49;

// The steps, points and costs of m resources at an offset before which n lines stand, put into blocks; or the number of the faulty line.
fn tables_into(
    s: &[u8],
    at: usize,
    m: usize,
    n: usize,
    blocks: &mut [i64],
) -> Result<TableEnd, usize>
    requires { (n + length (lines (drop at s.now)) ≤ 66000 + length s.now) × (length blocks.old ≤ 5120) }
    ensures reading { read_cells s.now result blocks.new ≡ last_three m (blocks_of blocks.old) n (lines (drop at s.now)) }
    ensures after { IfOk result (λ g. g.next ≡ at + bytes_of (g.line - n) (lines (drop at s.now))) }
{
    let Some(at) = line_is(s, at, b"resource end price\n") else {
        return Err(n + 1);
    };
    let steps = groups_into(s, at, m, n + 1, blocks, STEPS_FROM);
    let Some(at) = line_is(s, steps.next, b"resource mw heat\n") else {
        return Err(steps.line + 1);
    };
    let points = groups_into(s, at, m, steps.line + 1, blocks, POINTS_FROM);
    let Some(at) = line_is(
        s,
        points.next,
        b"resource gas rate allowance om msc soc fee\n",
    ) else {
        return Err(points.line + 1);
    };
    charges_into(s, at, m, points.line + 1, blocks, CHARGES_FROM)
}

// Puts portfolio and start of the first m resources, of at most 64, into their blocks.
fn owners_into(owners: &[i64], m: usize, blocks: &mut [i64])
    ensures { blocks.new ≡ blocks_put owner_cells 0 0 blocks.old (owner_rows owners.now (min m 64)) }
{
    let n = number::at_most(m, Interval::MAX_RESOURCES);
    for r in 0..n {
        let at = rules_state::BLOCK_ROOM * r;
        cells::put(blocks, at, cells::cell_at(owners, 2 * r));
        cells::put(blocks, at + 1, cells::cell_at(owners, 2 * r + 1));
    }
}

fn faulty_line(line: usize) -> PartOpened
    ensures { result ≡ faulty_at line }
{
    PartOpened {
        number: 17,
        line,
        next: 0,
        resources: 0,
    }
}

// The steps, points and costs of m resources at an offset before which n lines stand, put into blocks and opened.
fn opened_in(
    s: &[u8],
    at: usize,
    n: usize,
    head: &Head,
    m: usize,
    blocks: &mut [i64],
    state: &mut [i64],
) -> PartOpened
    requires { (n + length (lines (drop at s.now)) ≤ 66000 + length s.now) × (length blocks.old ≤ 5120) }
    ensures { Opened s.now n at (last_three m (λ steps points costs. opening_in head.now.month head.now.portfolios head.now.sellers.now m (blocks_of blocks.old steps points costs)) n (lines (drop at s.now))) state.old state.new result }
{
    let tables = match tables_into(s, at, m, n, blocks) {
        Ok(tables) => tables,
        Err(line) => return faulty_line(line),
    };
    let given = LentOpening {
        month: head.month,
        portfolios: head.portfolios,
        sellers: head.sellers,
        resources: m,
        blocks,
    };
    match open_into(&given, state) {
        Ok(()) => PartOpened {
            number: 0,
            line: tables.line,
            next: tables.next,
            resources: m,
        },
        Err(CallError::Refused(refusal)) => PartOpened {
            number: curve::refusal_number(refusal),
            line: tables.line,
            next: 0,
            resources: 0,
        },
        Err(CallError::TooShort) => PartOpened {
            number: TOO_SHORT,
            line: tables.line,
            next: 0,
            resources: m,
        },
    }
}

// The same of resources whose portfolio and start are read, in so many cells for their blocks.
fn opened_within<const CELLS: usize>(
    s: &[u8],
    at: usize,
    n: usize,
    head: &Head,
    m: usize,
    owners: &[i64],
    state: &mut [i64],
) -> PartOpened
    requires lines { n + length (lines (drop at s.now)) ≤ 66000 + length s.now }
    requires room { (80 * min m 64 ≤ CELLS) × (CELLS ≤ 5120) }
    ensures { Opened s.now n at (last_three m (opening_with head.now.month head.now.portfolios head.now.sellers.now m owners.now) n (lines (drop at s.now))) state.old state.new result }
{
    let mut blocks = [0i64; CELLS];
    owners_into(owners, m, &mut blocks);
    opened_in(s, at, n, head, m, &mut blocks, state)
}

// The lines of the resources at an offset before which n lines stand, and what is opened of them.
fn opened_long(s: &[u8], at: usize, n: usize, head: &Head, state: &mut [i64]) -> PartOpened
    requires { n + length (lines (drop at s.now)) ≤ 60000 + length s.now }
    ensures { Opened s.now n at (last_four head.now.month head.now.portfolios head.now.sellers.now n (lines (drop at s.now))) state.old state.new result }
{
    let mut owners = [0i64; OWNERS_ROOM];
    let table = owners_at(s, at, &mut owners);
    let m = table.count;
    let n = n + m;
    if m <= FEW {
        return opened_within::<FEW_ROOM>(s, table.next, n, head, m, &owners, state);
    }
    opened_within::<ROOM>(s, table.next, n, head, m, &owners, state)
}

// The same of a short text, in smaller arrays where it has one resource.
fn opened_short(s: &[u8], at: usize, n: usize, head: &Head, state: &mut [i64]) -> PartOpened
    requires { n + length (lines (drop at s.now)) ≤ 60000 + length s.now }
    ensures { Opened s.now n at (last_four head.now.month head.now.portfolios head.now.sellers.now n (lines (drop at s.now))) state.old state.new result }
{
    let mut owner = [0i64; ONE_OWNER];
    let table = owners_at(s, at, &mut owner);
    let m = table.count;
    if 1 < m {
        return opened_long(s, at, n, head, state);
    }
    opened_within::<ONE_ROOM>(s, table.next, n + m, head, m, &owner, state)
}

// The resources' table at an offset before which n lines stand, and what is opened of it. The long way is a function of its own, since its arrays take
// many pages of stack.
fn opened_after(s: &[u8], at: usize, n: usize, head: &Head, state: &mut [i64]) -> PartOpened
    requires { n + length (lines (drop at s.now)) ≤ 60000 + length s.now }
    ensures { Opened s.now n at (headed_four head.now.month head.now.portfolios head.now.sellers.now n (lines (drop at s.now))) state.old state.new result }
{
    let Some(at) = line_is(s, at, b"resource portfolio start\n") else {
        return faulty_line(n + 1);
    };
    if s.len() <= SHORT_BYTES {
        return opened_short(s, at, n + 1, head, state);
    }
    opened_long(s, at, n + 1, head, state)
}

// Opens an hour into its cells by the part at an offset of a text, whose lines are counted from there. Where a line is at fault, the opening is refused or the cells are
// too few, they are as they were.
pub fn part_opened(s: &[u8], at: usize, state: &mut [i64]) -> PartOpened
    ensures answer { result ≡ part_answer (λ k. at + bytes_of k (lines (drop at s.now))) state.old (read_opening 0 (lines (drop at s.now))) }
    ensures state { state.new ≡ part_state (read_opening 0 (lines (drop at s.now))) state.old }
    ensures rest { result.number ≡ 0 → lines (drop result.next s.now) ≡ lines_then (read_opening 0 (lines (drop at s.now))) }
{
    let Some(at) = line_is(s, at, b"month\n") else {
        return faulty_line(1);
    };
    let Some(row) = row_at(s, at, 1) else {
        return faulty_line(2);
    };
    let Some(at) = line_is(s, row.next, b"portfolio seller\n") else {
        return faulty_line(3);
    };
    let mut sellers = [0i64; Market::MAX_PORTFOLIOS];
    let portfolios = sellers_at(s, at, &mut sellers);
    let head = Head {
        month: row.v[0],
        portfolios: portfolios.count,
        sellers: &sellers,
    };
    opened_after(s, portfolios.next, 3 + portfolios.count, &head, state)
}
