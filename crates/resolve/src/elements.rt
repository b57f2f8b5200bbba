// A run of elements of a path, held against the lengths of an array.
ghost use Rattle.std.specs.Prelude.{◌≡◌, ◌+◌, ◌*◌, ◌≤◌};
ghost use Rattle.resolve.specs.Paths.{left};
ghost use Rattle.resolve.specs.Runs.{Ran, inside_of, position_of};

use crate::rest::Rest;

/// Consecutive elements: how many, the last three values, and what follows them.
#[derive(Clone, Copy)]
pub struct Run<'a> {
    pub count: usize,
    pub last: [u32; 3],
    pub rest: Rest<'a>,
}

/// One index more behind an outer position, row-major.
fn row(outer: usize, length: u32, index: u32) -> usize
    requires { outer * length + index ≤ 65536 }
    ensures { result ≡ outer * length + index }
{
    outer * length as usize + index as usize
}

impl<'a> Run<'a> {
    /// The run of elements that the rest of a path starts with.
    pub fn of(from: Rest<'a>) -> Run<'a>
        ensures { Ran (left from.entry) result }
    {
        let mut run = Run {
            count: 0,
            last: [0; 3],
            rest: from,
        };
        while let Some((value, rest)) = run.rest.element() {
            let [_, second, third] = run.last;
            run = Run {
                count: run.count + 1,
                last: [second, third, value],
                rest,
            };
        }
        run
    }

    /// Each index below its length.
    pub fn is_inside(self, lengths: [u32; 3]) -> bool
        ensures { result ≡ inside_of lengths self.entry.last }
    {
        let [first, second, third] = self.last;
        match lengths {
            [a, 0, _] => third < a,
            [a, b, 0] => second < a && third < b,
            [a, b, c] => first < a && second < b && third < c,
        }
    }

    /// The position that the indexes mean, row-major.
    pub fn position(self, lengths: [u32; 3]) -> usize
        requires { position_of lengths self.last ≤ 65536 }
        ensures { result ≡ position_of lengths self.entry.last }
    {
        let [first, second, third] = self.last;
        match lengths {
            [_, 0, _] => third as usize,
            [_, b, 0] => row(second as usize, b, third),
            [_, b, c] => row(row(first as usize, b, second), c, third),
        }
    }
}
