// A reader of a text: the lent text and the offset of the next line. All of a text is read through it, a part at a time. Its methods are thin, over
// `opening_part::part_opened` and `interval_part::part_taken`, which take the text and the offset, and hand the reader back at the next line.
#![tactic(auto)]

ghost use Rattle.std.specs.Prelude.{◌≡◌, [], ◌+◌, min, drop};
ghost use Rattle.rules_text.specs.Numbers.{lines};
ghost use Rattle.rules_text.specs.Offsets.{bytes_of};
ghost use Rattle.rules_parts.specs.Parts.{read_opening, read_interval};
ghost use Rattle.rules_state.specs.Takes.{if_accepted};
ghost use Rattle.opening_part.specs.Parts.{part_answer, part_state, lines_then};
ghost use Rattle.interval_part.specs.Taken.{taken_by, state_by, verdicts_by, left_by};
ghost use Rattle.reader.specs.Read.{left, opened_of, taken_of};

use interval_part::{PartTaken, part_taken};
use opening_part::{PartOpened, part_opened};
use rules_state::VERDICT_ROOM;

// The lent text and the offset of the next line.
#[derive(Clone, Copy)]
pub struct Reader<'a> {
    pub text: &'a [u8],
    pub at: usize,
}

// What the part that opens an hour answers, and the reader at the line after it; at the text's first where the part is faulty or refused.
#[derive(Clone, Copy)]
pub struct AfterOpening<'a> {
    pub reader: Reader<'a>,
    pub number: u64,
    pub line: usize,
    pub resources: usize,
}

// The same of an interval's part.
#[derive(Clone, Copy)]
pub struct AfterInterval<'a> {
    pub reader: Reader<'a>,
    pub number: u64,
    pub line: usize,
    pub constraints: usize,
}

impl<'a> Reader<'a> {
    // A reader at the text's first line.
    pub fn new(text: &'a [u8]) -> Self
        ensures { (result.text ≡ text.entry) × (result.at ≡ 0) }
    {
        Self { text, at: 0 }
    }

    // The same text, from another offset on.
    pub fn moved(self, at: usize) -> Self
        ensures { (result.text ≡ self.entry.text) × (result.at ≡ at) }
    {
        Self { at, ..self }
    }

    // Opens an hour into its cells by the part at the next line, and hands back the reader at the line after it.
    pub fn opening(self, state: &mut [i64]) -> AfterOpening<'a>
        ensures reader { result.reader.text ≡ self.entry.text }
        ensures answer { opened_of result ≡ part_answer (λ k. self.entry.at + bytes_of k (left self.entry)) state.old (read_opening 0 (left self.entry)) }
        ensures state { state.new ≡ part_state (read_opening 0 (left self.entry)) state.old }
        ensures rest { result.number ≡ 0 → left result.reader ≡ lines_then (read_opening 0 (left self.entry)) }
    {
        let PartOpened {
            number,
            line,
            next,
            resources,
        } = part_opened(self.text, self.at, state);
        AfterOpening {
            reader: Self { at: next, ..self },
            number,
            line,
            resources,
        }
    }

    // Takes the interval's part at the next line, before which `line` lines stand, in the hour of the state, and hands back the reader at the line after it.
    pub fn interval(
        self,
        line: usize,
        state: &mut [i64],
        verdicts: &mut [i64; VERDICT_ROOM],
    ) -> AfterInterval<'a>
        ensures reader { result.reader.text ≡ self.entry.text }
        ensures answer { taken_of result ≡ taken_by state.old self.entry.at (min line 65536) (left self.entry) (read_interval (min line 65536) (left self.entry)) }
        ensures state { state.new ≡ state_by state.old (read_interval (min line 65536) (left self.entry)) }
        ensures verdicts { verdicts.new ≡ verdicts_by state.old verdicts.old (read_interval (min line 65536) (left self.entry)) }
        ensures rest { if_accepted result.number (left result.reader) [] ≡ left_by state.old (read_interval (min line 65536) (left self.entry)) }
    {
        let PartTaken {
            number,
            line,
            next,
            constraints,
        } = part_taken(self.text, self.at, line, state, verdicts);
        AfterInterval {
            reader: Self { at: next, ..self },
            number,
            line,
            constraints,
        }
    }
}

// The part that opens an hour, at the beginning of a text, through a reader: the parameters are plain, so that a caller needs no walk.
pub fn opening_of(text: &[u8], state: &mut [i64]) -> PartOpened
    ensures answer { result ≡ part_answer (λ k. bytes_of k (lines text.now)) state.old (read_opening 0 (lines text.now)) }
    ensures state { state.new ≡ part_state (read_opening 0 (lines text.now)) state.old }
    ensures rest { result.number ≡ 0 → lines (drop result.next text.now) ≡ lines_then (read_opening 0 (lines text.now)) }
{
    let AfterOpening {
        reader,
        number,
        line,
        resources,
    } = Reader::new(text).opening(state);
    PartOpened {
        number,
        line,
        next: reader.at,
        resources,
    }
}

// The interval's part at an offset of a text, before which `line` lines stand, through a reader, with plain parameters.
pub fn interval_of(
    text: &[u8],
    at: usize,
    line: usize,
    state: &mut [i64],
    verdicts: &mut [i64; VERDICT_ROOM],
) -> PartTaken
    ensures answer { result ≡ taken_by state.old at (min line 65536) (lines (drop at text.now)) (read_interval (min line 65536) (lines (drop at text.now))) }
    ensures state { state.new ≡ state_by state.old (read_interval (min line 65536) (lines (drop at text.now))) }
    ensures verdicts { verdicts.new ≡ verdicts_by state.old verdicts.old (read_interval (min line 65536) (lines (drop at text.now))) }
    ensures rest { if_accepted result.number (lines (drop result.next text.now)) [] ≡ left_by state.old (read_interval (min line 65536) (lines (drop at text.now))) }
{
    let AfterInterval {
        reader,
        number,
        line,
        constraints,
    } = Reader::new(text).moved(at).interval(line, state, verdicts);
    PartTaken {
        number,
        line,
        next: reader.at,
        constraints,
    }
}
