// Reads a text from standard input, and writes what running it prints to standard output.
#![tactic(auto)]

// Runs standard input in the lent arrays. Apart from main: tried there, the proof did not close over arrays of this length.
fn run_in(
    rt: &HostRuntime,
    text: &mut [u8; streams::TEXT_ROOM],
    page: &mut [u8; streams::PAGE_ROOM],
) {
    streams::mitigate(rt, text, page);
}

fn main(rt: HostRuntime) {
    let mut text = [0u8; streams::TEXT_ROOM];
    let mut page = [0u8; streams::PAGE_ROOM];
    run_in(&rt, &mut text, &mut page);
}
