// Standard input to standard output: a text is read to its end and run, and what it prints is written. A read or a write that fails is said on standard error. The
// contracts cite specs/Streams: what the library's calls move no contract can say, but what was read is what is run, and what it prints is what is handed over.
#![tactic(auto)]

ghost use Rattle.std.specs.Prelude.{◌≡◌, ◌≤◌, ◌<◌, length, IfOk};
ghost use Rattle.rules_run.specs.Run.{run_room};
ghost use Rattle.streams.specs.Streams.{bytes_run, bytes_handed, bytes_printed, page_after, IsHanded, IsSmall};

use rules_run::Ran;
use std::io::{self, Read};

// What came of a run: how many bytes were read, and how many of the page were written; or that these could not be written, that a read failed before the text's end, or
// that the page has too little room.
#[derive(Clone, Copy)]
pub enum Streamed {
    Written(usize, usize),
    Unwritten(usize, usize),
    Unread,
    TooSmall,
}

// Room for one byte more than a text may have, so that a longer one is seen to be too long, and for what any text prints.
pub const TEXT_ROOM: usize = run::MAX_TEXT + 1;

pub const PAGE_ROOM: usize = run::ROOM;

// Reads until the input ends or there is no more room, and answers how many bytes that gave. A read that fails is not the input's end.
fn read_all<R: Read>(input: &mut R, text: &mut [u8]) -> io::Result<usize>
    ensures { IfOk result (λ n. n ≤ length text.new) }
{
    let mut n: usize = 0;
    while n < text.len() {
        let more = input.read(&mut text[n..])?;
        if more == 0 {
            break;
        }
        n += more;
    }
    Ok(n)
}

// Says on standard error what failed; where that fails too, nothing more can be said.
fn complain(rt: &HostRuntime, what: &[u8]) {
    let _unsaid = rt.stderr().write_all(what);
}

// Hands the first k bytes of the page to standard output, which a text of n bytes printed.
fn written(rt: &HostRuntime, page: &[u8], n: usize, k: usize) -> Streamed
    requires { k ≤ length page.now }
    ensures { IsHanded n k result }
{
    if rt.write_all(&page[..k]).is_ok() {
        return Streamed::Written(n, k);
    }
    complain(rt, b"mitigate: standard output could not be written\n");
    Streamed::Unwritten(n, k)
}

// Reads standard input into the lent text, runs what was read, and writes what the lent page then holds of it to standard output.
pub fn mitigate(rt: &HostRuntime, text: &mut [u8], page: &mut [u8]) -> Streamed
    ensures read { bytes_run result ≤ length text.new }
    ensures page { page.new ≡ page_after result text.new page.old }
    ensures handed { bytes_handed result ≡ bytes_printed result text.new }
    ensures small { IsSmall result → length page.old < run_room }
{
    let Ok(n) = read_all(&mut rt.stdin(), text) else {
        complain(
            rt,
            b"mitigate: standard input could not be read to its end\n",
        );
        return Streamed::Unread;
    };
    let Ran::Printed(k, _, _) = run::run(&text[..n], page) else {
        return Streamed::TooSmall;
    };
    written(rt, page, n, k)
}
