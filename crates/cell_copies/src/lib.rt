// Many numbers copied at once: a lent array filled from a slice, in which a number past the end is 0, and a slice put into another, in which a number past the end
// is put nowhere. The contracts cite the definitions of rules_library and rules_state.
#![tactic(auto)]

ghost use Rattle.std.specs.Prelude.{◌≡◌, ◌+◌, ◌-◌, ◌*◌, ◌≤◌, min as least, length};
ghost use Rattle.std.proofs.lemmas.List.Edits.{sets};
ghost use Rattle.rules_number.specs.Over.{listed};
ghost use Rattle.rules_library.specs.Slices.{cell_at};

// A place moved on by a step, or the end where that goes past it.
fn onward(place: usize, step: usize, end: usize) -> usize
    requires { place ≤ end }
    ensures { result ≡ least (place + step) end }
{
    place.saturating_add(step).min(end)
}

// Fills with the numbers from a place on, each `step` after the one before it.
pub fn fill_every(into: &mut [i64], from: &[i64], at: usize, step: usize)
    ensures { into.new ≡ listed (λ k. cell_at from.now (step * k + at)) (length into.old) }
{
    let mut place = at.min(from.len());
    for x in into.iter_mut() {
        *x = cells::cell_at(from, place);
        place = onward(place, step, from.len());
    }
}

// Fills with the numbers from a place on.
pub fn fill(into: &mut [i64], from: &[i64], at: usize)
    ensures { into.new ≡ listed (λ k. cell_at from.now (at + k)) (length into.old) }
{
    fill_every(into, from, at, 1);
}

// Puts numbers in turn, from an offset on.
pub fn put_all(out: &mut [i64], at: usize, from: &[i64])
    ensures { out.new ≡ sets out.old at from.now }
{
    let room = from.len().min(out.len().saturating_sub(at));
    for i in 0..room {
        out[at + i] = from[i];
    }
}
