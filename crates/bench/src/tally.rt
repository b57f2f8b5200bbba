// What was compared: a line of output for each comparison, and the counts.
use input::bytes::Hex;
use std::{fmt, io};

/// A number with a space before it.
#[derive(Clone, Copy, PartialEq, Eq)]
struct Count(usize);

impl fmt::Display for Count {
    fn fmt<W: fmt::Write>(&self, f: &mut fmt::Formatter<W>) -> fmt::Result {
        write!(f, " {}", self.0)
    }
}

/// The first n bytes, or all if there are fewer.
pub fn first(s: &[u8], n: usize) -> &[u8] {
    s.get(..n).unwrap_or(s)
}

/// Where the comparisons are printed, and how they ended.
#[derive(Drop)]
pub struct Tally<'a, P: Print> {
    to: &'a P,
    ok: u64,
    differ: u64,
}

impl<'a, P: Print> Tally<'a, P> {
    pub fn new(to: &'a P) -> Tally<'a, P> {
        Tally {
            to,
            ok: 0,
            differ: 0,
        }
    }

    fn compare<T: Copy + PartialEq + fmt::Display>(
        &mut self,
        name: &str,
        got: T,
        expected: T,
    ) -> io::Result<()> {
        if got == expected {
            self.ok = self.ok.wrapping_add(1);
            return println!(self.to; "{name}: ok{got}");
        }
        self.differ = self.differ.wrapping_add(1);
        println!(self.to; "{name}: DIFFERS{got}, expected{expected}")
    }

    /// Tells bytes, and the expected ones if they are others; `==` compares them.
    pub fn bytes(&mut self, name: &str, got: &[u8], expected: &[u8]) -> io::Result<()> {
        self.compare(name, Hex(got), Hex(expected))
    }

    /// Tells how many replies an exchange took.
    pub fn replies(&mut self, got: usize, expected: usize) -> io::Result<()> {
        self.compare("  in replies", Count(got), Count(expected))
    }

    pub fn close(&self) -> io::Result<()> {
        let (ok, differ) = (self.ok, self.differ);
        println!(self.to; "{ok} ok, {differ} differ")
    }
}
