// A text run for programs in other languages: functions on slices under C names. The contracts cite the definitions of rules_library.
#![tactic(auto)]

ghost use Rattle.std.specs.Prelude.{◌≡◌};
ghost use Rattle.rules_run.specs.Run.{output, end_of, ran_within, ran_to, run_room};
ghost use Rattle.rules_library.specs.Answers.{ran_number, told_answer, told_page, told_after};

use rules_run::Ran;

// How many numbers the slice lent to noskjerf_told has to have: the number of a refusal and its line.
const TOLD: usize = 2;

// How many bytes a page lent to noskjerf_run or noskjerf_told has to have.
#[unsafe(no_mangle)]
pub extern "C" fn noskjerf_room() -> usize
    ensures { result ≡ run_room }
{
    run::ROOM
}

// Runs a text: puts what it prints on the lent page, from its first byte on, and answers how many bytes that took, or -1 where the page has less room than
// noskjerf_room says and is left as it was.
#[unsafe(no_mangle)]
pub extern "C" fn noskjerf_run(text: &[u8], page: &mut [u8]) -> i64
    ensures page { page.new ≡ ran_within page.old (output text.now) }
    ensures count { result ≡ ran_number (ran_to page.old (output text.now) (end_of text.now)) }
{
    match run::run(text, page) {
        Ran::Printed(count, _, _) => count as i64,
        Ran::TooSmall => -1,
    }
}

// Runs a text as noskjerf_run does, and puts the number of its refusal and then the line at the front of `told`, 0 and 0 where nothing is refused. Answers how
// many bytes were printed, or -1 where the page has less room than noskjerf_room says or `told` fewer than 2 numbers, and leaves both as they were.
#[unsafe(no_mangle)]
pub extern "C" fn noskjerf_told(text: &[u8], page: &mut [u8], told: &mut [u64]) -> i64
    ensures answer { result ≡ told_answer page.old told.old (output text.now) }
    ensures page { page.new ≡ told_page page.old told.old (output text.now) }
    ensures told { told.new ≡ told_after page.old told.old (end_of text.now) }
{
    if told.len() < TOLD {
        return -1;
    }
    let Ran::Printed(count, number, line) = run::run(text, page) else {
        return -1;
    };
    told[0] = number;
    told[1] = line as u64;
    count as i64
}
