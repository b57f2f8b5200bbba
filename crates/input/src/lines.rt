// Standard input through a fixed buffer, cut into lines.
ghost use Rattle.std.specs.Prelude.{◌≡◌, false, ◌+◌, ◌-◌, ◌≤◌, ◌<◌, length, IfSome};
ghost use Rattle.laws.specs.Put.{put};
ghost use Rattle.definition.specs.Bytes.{part};
ghost use Rattle.input.specs.Text.{found_at, end_after, left_after};

/// How far the input is read: where the unfinished line begins or how many of its bytes are at the buffer's start, its
/// number, and whether it is the rest of a line that was too long.
#[derive(Clone, Copy, Debug, PartialEq, Eq)]
pub struct Cursor {
    pub at: usize,
    pub line: u64,
    pub skipping: bool,
}

impl Cursor {
    /// Before the first line.
    pub fn first() -> Cursor
        ensures { (result.at ≡ 0) × (result.line ≡ 1) × (result.skipping ≡ false) }
    {
        Cursor {
            at: 0,
            line: 1,
            skipping: false,
        }
    }

    /// The unfinished line to the buffer's start.
    pub fn shift(self, input: &mut [u8], end: usize) -> Cursor
        requires { (self.at ≤ end) × (end ≤ length input.old) }
        ensures { (result.at ≡ end - self.at) × (result.line ≡ self.line) × (result.skipping ≡ self.skipping)
            × (input.new ≡ put input.old 0 (part input.old self.at (end - self.at))) }
    {
        input.copy_within(self.at..end, 0);
        Cursor {
            at: end - self.at,
            ..self
        }
    }
}

/// The first place of a character.
pub fn find(text: &[u8], c: u8) -> Option<usize>
    ensures found { result ≡ found_at c text.now }
    ensures inside { IfSome result (λ n. n < length text.now) }
{
    text.iter().position(|b| *b == c)
}

/// The new end after n bytes came behind what is there. At the input's end, where none came, an unfinished line is ended;
/// where there is none, nothing is left to be read.
pub fn ended(input: &mut [u8], at: usize, n: usize) -> Option<usize>
    requires { (at < length input.old) × (at + n ≤ length input.old) }
    ensures { (result ≡ end_after at n) × (input.new ≡ left_after at n input.old) }
{
    if n > 0 {
        return Some(at + n);
    }
    if at == 0 {
        return None;
    }
    input[at] = b'\n';
    Some(at + 1)
}
