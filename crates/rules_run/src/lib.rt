// The whole run: the bytes of a text in, the bytes that are printed out (paper 01, Text; 17, 18). No code.
#![tactic(auto)]

// How many bytes were printed, with the number of the refusal and its line, which are 0 and 0 where nothing is refused; or that the lent page has less room than ROOM.
#[derive(Clone, Copy)]
pub enum Ran {
    Printed(usize, u64, usize),
    TooSmall,
}
