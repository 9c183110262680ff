// Runs the text NAME.txt for each NAME of the file `names`, and prints a line that says whether it prints what NAME.out has.
#![tactic(auto)]

ghost use Rattle.std.specs.Prelude.{◌≤◌, length};

use rules_run::Ran;
use std::{fs, io};

// What running the text prints on the page.
fn printed<'a>(text: &[u8], page: &'a mut [u8]) -> &'a [u8]
    ensures { length result.now ≤ length page.old }
{
    let Ran::Printed(k, _, _) = run::run(text, page) else {
        return &[];
    };
    page.get(..k).unwrap_or(&[])
}

// The first index at which two texts differ, or at which the shorter ends.
fn first_difference(a: &[u8], b: &[u8]) -> usize {
    a.iter().zip(b).take_while(|(x, y)| x == y).count()
}

// Runs the text of one name, and prints its line. Bytes count from 0.
fn compare(rt: &HostRuntime, name: &str, page: &mut [u8]) -> io::Result<()> {
    let text_file = format!(in rt.alloc(); "{name}.txt")?;
    let wanted_file = format!(in rt.alloc(); "{name}.out")?;
    let Ok(text) = fs::read(rt, text_file.as_str()) else {
        return println!(rt; "{name} cannot be read");
    };
    let Ok(wanted) = fs::read(rt, wanted_file.as_str()) else {
        return println!(rt; "{name} cannot be read");
    };
    let shown = printed(&text, page);
    if shown == wanted.as_slice() {
        return println!(rt; "{name} same");
    }
    let at = first_difference(shown, &wanted);
    println!(rt; "{name} differs at byte {at}")
}

fn main(rt: HostRuntime) -> io::Result<()> {
    let names = fs::read_to_string(&rt, "names")?;
    let mut page = [0u8; run::ROOM];
    for name in names.as_str().lines() {
        compare(&rt, name, &mut page)?;
    }
    Ok(())
}
