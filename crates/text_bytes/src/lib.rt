// The bytes of a line beside its numbers: what closes a value, a sign, the id at the line's head (paper 01, Text). The contracts cite specs/Heads and the definitions of rules_text.
#![tactic(auto)]

ghost use Rattle.std.specs.Prelude.{◌≡◌, cond, ℕ, ◌+◌, ◌*◌, ◌/◌, ◌%◌, ◌<◌, ◌≤◌, ◌≢◌, eqb, length, pos, IfSome, IfNone};
ghost use Rattle.rules_number.specs.Order.{eq_z};
ghost use Rattle.rules_text.specs.Numbers.{closing as Numbers·closing};
ghost use Rattle.rules_text.specs.Offsets.{number_at, closed_by};
ghost use Rattle.text_bytes.specs.Heads.{head_on};

// Whether the id that is due stands at the head of a line: the offset past it and a space, or another id, or unread where few bytes are left or the id is above 99.
#[derive(Clone, Copy)]
pub enum Head {
    Unread,
    Other,
    Past(usize),
}

// What digits spell, and the offset after the byte that closes them.
#[derive(Clone, Copy)]
pub struct Closed {
    pub value: u64,
    pub next: usize,
}

// How many bytes the sign takes, where a number begins with b.
pub fn sign_width(b: u8) -> usize
    ensures { result ≡ cond (eqb b 45) 1 0 }
{
    if b == 45 { 1 } else { 0 }
}

// What closes a number that k others follow in its line.
pub fn closing(k: usize) -> u8
    ensures { result ≡ Numbers·closing k }
{
    if k == 0 { 10 } else { 32 }
}

// Whether a value is the id n.
pub fn is_id(n: usize, x: i64) -> bool
    ensures { result ≡ eq_z (pos n) x }
{
    if x < 0 {
        return false;
    }
    n == number::whole(x) as usize
}

// The offset below which k bytes are left of a text, or 0 where the id n has more than two digits.
fn room(len: usize, n: usize, k: usize) -> usize
    requires { 1 ≤ k }
    ensures by_index { (p : ℕ) → p < result → (n < 100) × (p + k ≤ len) }
    ensures by_index_2 { (p : ℕ) → result ≤ p → n < 100 → p + k ≤ len → ⊥ }
{
    if len < k {
        return 0;
    }
    if 99 < n {
        return 0;
    }
    len - k + 1
}

// The offset after the id n and a space at an offset: numbers have no leading zeros, so the bytes tell.
fn past_head(s: &[u8], at: usize, n: usize) -> Option<usize>
    requires { (n < 100) × (at + 3 ≤ length s.now) }
    ensures past { IfSome result (λ p. Some (pos n, p) ≡ closed_by s.now 32 (number_at s.now at)) }
    ensures other { IfNone result ((q : ℕ) → Some (pos n, q) ≢ closed_by s.now 32 (number_at s.now at)) }
{
    let word = s[at] as u64 + s[at + 1] as u64 * 256;
    if n < 10 {
        if word != 8240 + n as u64 {
            return None;
        }
        return Some(at + 2);
    }
    if word != 12336 + n as u64 / 10 + n as u64 % 10 * 256 {
        return None;
    }
    if s[at + 2] != 32 {
        return None;
    }
    Some(at + 3)
}

// The head of the line at an offset, where k bytes are left after the longest id and a space.
pub fn head_at(s: &[u8], at: usize, n: usize, k: u8) -> Head
    ensures { result ≡ head_on n k s.now at }
{
    if room(s.len(), n, k as usize + 3) <= at {
        return Head::Unread;
    }
    let Some(p) = past_head(s, at, n) else {
        return Head::Other;
    };
    Head::Past(p)
}
