// Lines of values at an offset of a lent text (paper 01, Text). The contracts cite the definitions of rules_text.
#![tactic(auto)]

ghost use Rattle.std.specs.Prelude.{◌≡◌};
ghost use Rattle.rules_text.specs.Offsets.{row_at};

use rules_text::Row;
use text_bytes::closing;
use text_numbers::closed_at;

// The k values of the line at an offset, with one space between; no row where k isn't 1 to 8.
pub fn row_at(s: &[u8], at: usize, k: usize) -> Option<Row<8>>
    ensures { result ≡ row_at 8 s.now at k }
{
    if k < 1 {
        return None;
    }
    if 8 < k {
        return None;
    }
    let mut v = [0i64; 8];
    let mut p = at;
    for i in 0..k {
        let (x, n) = closed_at(s, p, closing(k - i - 1))?;
        v[i] = x;
        p = n;
    }
    Some(Row { v, next: p })
}
