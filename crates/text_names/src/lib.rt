// Names lines at an offset of a lent text (paper 01, Text; request 2.4: "Compare eight bytes as one number where eight remain, single bytes after that").
// The contracts cite the definitions of rules_text.
#![tactic(auto)]

ghost use Rattle.std.specs.Prelude.{◌≡◌, ◌+◌, ◌≤◌, ◌<◌, length};
ghost use Rattle.rules_text.specs.Offsets.{names_at};
ghost use Rattle.text_names.specs.Pairs.{pair_at, four_at, word_at};

// The number that two bytes at an offset spell, the first the lower.
fn two_at(s: &[u8], at: usize) -> u64
    requires { at + 2 ≤ length s.now }
    ensures { (result ≡ pair_at s.now at) × (result < 65536) }
{
    let low = s[at] as u64;
    let high = s[at + 1] as u64;
    low + high * 256
}

// The same of four bytes.
fn four_at(s: &[u8], at: usize) -> u64
    requires { at + 4 ≤ length s.now }
    ensures { (result ≡ four_at s.now at) × (result < 4294967296) }
{
    let low = two_at(s, at);
    let high = two_at(s, at + 2);
    low + high * 65_536
}

// The same of eight bytes.
fn word_at(s: &[u8], at: usize) -> u64
    requires { at + 8 ≤ length s.now }
    ensures { result ≡ word_at s.now at }
{
    let low = four_at(s, at);
    let high = four_at(s, at + 4);
    low + high * 4_294_967_296
}

// The offset past the wanted bytes where they stand at an offset, single bytes compared; the text is long enough.
fn bytes_are(s: &[u8], at: usize, want: &[u8]) -> Option<usize>
    requires { at + length want.now ≤ length s.now }
    ensures { result ≡ names_at s.now at want.now }
{
    for (i, b) in want.iter().enumerate() {
        if s[at + i] != *b {
            return None;
        }
    }
    Some(at + want.len())
}

// The offset past the wanted bytes, a names line with its byte 10, where they stand at an offset.
pub fn line_is(s: &[u8], at: usize, want: &[u8]) -> Option<usize>
    ensures { result ≡ names_at s.now at want.now }
{
    if want.len() == 0 {
        return Some(at);
    }
    if s.len() < want.len() {
        return None;
    }
    if s.len() - want.len() < at {
        return None;
    }
    // By index: both slices are read eight bytes at a time.
    let mut i = 0;
    while 8 <= want.len() - i {
        if word_at(s, at + i) != word_at(want, i) {
            return None;
        }
        i += 8;
    }
    bytes_are(s, at + i, &want[i..])
}
