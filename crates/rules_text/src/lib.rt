// Texts (paper 01, Text): numbers, lines of values, names lines and tables, as they are read and as they are printed. No code.
#![tactic(auto)]

// The values of a line, with the offset of the next line. Those past the line's last value are 0.
#[derive(Clone, Copy)]
pub struct Row<const N: usize> {
    pub v: [i64; N],
    pub next: usize,
}
