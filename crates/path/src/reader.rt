// The reader over the path bytes: it stands at a position, reads what stands there, and stands behind it then. Where the path ends too soon it
// reads nothing and stays.
ghost use Rattle.std.specs.Prelude.{◌≡◌, leb, length, Option};
ghost use Rattle.definition.specs.Segment.{segment_at};
ghost use Rattle.path.specs.Reading.{byte_at, word_at, long_at, Takes, Passed, Reads};
ghost use Rattle.path.specs.Nth.{segment_count, Nth};

use crate::{Segment, Step};

/// A path and a position in it, or past its end.
#[derive(Clone, Copy)]
pub struct Reader<'a> {
    pub path: &'a [u8],
    pub at: usize,
}

impl<'a> Reader<'a> {
    /// A reader that stands at the path's start. It moves and may stand anywhere; `resolve::rest::Rest` is a value, and decodes.
    pub fn new(path: &'a [u8]) -> Reader<'a>
        ensures path { result.path ≡ path.entry }
        ensures at { result.at ≡ 0 }
    {
        Reader { path, at: 0 }
    }

    /// Whether the reader has come to the path's end.
    pub fn is_empty(&self) -> bool
        ensures { result ≡ leb (length self.now.path.now) self.now.at }
    {
        self.path.len() <= self.at
    }

    /// The n bytes from where the reader stands.
    pub fn take(&mut self, n: usize) -> Option<&'a [u8]>
        ensures bytes { Takes self.old n result }
        ensures behind { Passed self.old n self.new }
    {
        let path = self.path;
        let part = path.get(self.at..)?.get(..n)?;
        self.at += n;
        Some(part)
    }

    pub fn u8(&mut self) -> Option<u8>
        ensures byte { result ≡ byte_at self.old.path.now self.old.at }
        ensures behind { Passed self.old 1 self.new }
    {
        let bytes = self.take(1)?;
        Some(bytes[0])
    }

    // Two widths, a line each over `take`: one function for both would hand out bytes that each caller puts together.
    pub fn u16(&mut self) -> Option<u16>
        ensures word { result ≡ word_at self.old.path.now self.old.at }
        ensures behind { Passed self.old 2 self.new }
    {
        let bytes = self.take(2)?;
        Some(cip::u16_at(bytes, 0))
    }

    pub fn u32(&mut self) -> Option<u32>
        ensures long { result ≡ long_at self.old.path.now self.old.at }
        ensures behind { Passed self.old 4 self.new }
    {
        let bytes = self.take(4)?;
        Some(cip::u32_at(bytes, 0))
    }

    /// The segment where the reader stands; none where it is invalid or cut short.
    pub fn segment(&mut self) -> Option<Segment<'a>>
        ensures { Reads self.old result self.new }
    {
        let step = crate::segment_at(self.path, self.at)?;
        self.at = step.next;
        Some(step.segment)
    }
}

/// The number of a path's segments; none where it does not decode.
pub fn count_segments(path: &[u8]) -> Option<usize>
    ensures { result ≡ segment_count path.now }
{
    let mut r = Reader::new(path);
    let mut count = 0;
    // no `while let`: a path that ends is told from a segment that is none
    while !r.is_empty() {
        r.segment()?;
        count += 1;
    }
    Some(count)
}

/// A path's i-th segment, counted from 0, with the position behind it; none behind the last one, and in a path that does not decode.
pub fn nth_segment<'a>(path: &'a [u8], i: usize) -> Option<Step<'a>>
    ensures { Nth path.now i result }
{
    let n = count_segments(path)?;
    if n <= i {
        return None;
    }
    let mut r = Reader::new(path);
    // turns, and no index
    for _ in 0..i {
        r.segment()?;
    }
    crate::segment_at(path, r.at)
}
