// Lines of a page put once more at a later place, each with another first byte: what an unchanged curve prints in the next interval. The contracts cite the
// definitions of specs/Lines.
#![tactic(auto)]

ghost use Rattle.std.specs.Prelude.{◌≡◌, ◌+◌, ◌≤◌, length, take, drop};
ghost use Rattle.std.proofs.lemmas.List.Edits.{sets};
ghost use Rattle.line_copies.specs.Lines.{headed, with_lines, lines_to};

// Puts bytes over others. A function of its own, by index, for speed: what two references lend lies apart, so that the compiler copies many bytes a turn.
fn copy_over(into: &mut [u8], bytes: &[u8])
    requires { length into.old ≡ length bytes.now }
    ensures { into.new ≡ bytes.now }
{
    for k in 0..bytes.len() {
        into[k] = bytes[k];
    }
}

// Puts the n bytes at an offset again at a later one, past their end.
fn copy_bytes(page: &mut [u8], from: usize, at: usize, n: usize)
    requires { (from + n ≤ at) × (at + n ≤ length page.old) }
    ensures { page.new ≡ sets page.old at (take n (drop from page.old)) }
{
    let (before, after) = page.split_at_mut(at);
    copy_over(&mut after[..n], &before[from..from + n]);
}

// Sets the first byte of each line in the n bytes at an offset. Their widths stand from an index on.
fn put_heads(page: &mut [u8], at: usize, n: usize, widths: &[u8], base: usize, first: u8)
    requires { at + n ≤ length page.old }
    ensures { page.new ≡ sets page.old at (headed first 0 (drop base widths.now) (take n (drop at page.old))) }
{
    let mut p: usize = 0;
    for k in base..widths.len() {
        if n <= p {
            return;
        }
        page[at + p] = first;
        p += widths[k] as usize;
    }
}

// Puts the n bytes at an offset again at a later one, past their end, with another first byte in each line. The widths of the lines stand from an index on.
pub fn copy_lines(
    page: &mut [u8],
    from: usize,
    at: usize,
    n: usize,
    widths: &[u8],
    base: usize,
    first: u8,
) -> Option<usize>
    ensures page { page.new ≡ with_lines page.old from at n widths.now base first }
    ensures next { result ≡ lines_to page.old from at n }
{
    if !number::has_room(at, from, n) || !number::has_room(page.len(), at, n) {
        return None;
    }
    copy_bytes(page, from, at, n);
    put_heads(page, at, n, widths, base, first);
    Some(at + n)
}
