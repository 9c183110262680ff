// The lines of a refusal (paper 01, Text), put into a lent buffer at an offset. The contracts cite the definitions of rules_page.
#![tactic(auto)]

ghost use Rattle.std.specs.Prelude.{◌≡◌, ◌+◌, ◌*◌, ◌≤◌, pos, length, unwrap_or};
ghost use Rattle.rules_text.specs.Printing.{line_text, refusal_text, printed, printed_to};
ghost use Rattle.rules_page.specs.Pages.{printable as printableOf};
ghost use Rattle.rules_page.specs.Pages.{Put, refusal_room, put_within, put_within_to};

// The lines of a refusal are put where at least this many bytes are left.
pub const REFUSAL_ROOM: usize = 64;

// A quantity as it is printed.
pub fn printable(n: u64) -> i64
    ensures { result ≡ pos (printableOf n) }
{
    n.min(i64::MAX as u64) as i64
}

// Puts the line of the values at an offset, where it fits, and answers the offset after it: the same offset where it doesn't.
#[inline(always)]
pub fn put_line(out: &mut [u8], at: usize, row: &[i64]) -> usize
    ensures page { out.new ≡ printed out.old at (line_text row.now) }
    ensures next { result ≡ unwrap_or (printed_to out.old at (line_text row.now)) at }
    ensures whole { at + 21 * length row.now ≤ length out.old → Put (21 * length row.now) out.old at (line_text row.now) out.new result }
{
    print::print_line(out, at, row).unwrap_or(at)
}

// Prints the lines of a refusal, its number and its line, where there is room.
pub fn print_refusal(out: &mut [u8], at: usize, number: u64, line: u64) -> Option<usize>
    ensures buffer { out.new ≡ put_within refusal_room out.old at (refusal_text (printableOf number) (printableOf line)) }
    ensures next { result ≡ put_within_to refusal_room out.old at (refusal_text (printableOf number) (printableOf line)) }
{
    if !number::has_room(out.len(), at, REFUSAL_ROOM) {
        return None;
    }
    let next = print::put_names(out, at, b"refusal line\n");
    print::print_line(out, next, &[printable(number), printable(line)])
}
