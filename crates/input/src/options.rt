// The words behind the program's name: which option each is, and which of them names the table image.
ghost use Rattle.std.specs.Prelude.{◌≡◌, false, None};
ghost use Rattle.input.specs.Options.{is_dashed, option_of, word_of, taken_by};

/// What one word is. A word that is too long or unknown is told by its place, as the others are taken by theirs.
#[derive(Clone, Copy, Debug, PartialEq, Eq)]
pub enum Argument {
    Help,
    Numbers,
    Tables,
    Join,
    /// The name of a table image.
    File,
    /// It begins with a minus sign and is no option.
    Unknown,
    /// It is longer than the buffer for it.
    TooLong,
}

impl Argument {
    /// What a word is; none: it is longer than the buffer for it.
    #[tactic(auto, using(crate::proofs::Words::words), unfolding(crate::specs::Options::word_of))]
    pub fn of(word: Option<&[u8]>) -> Argument
        ensures { result ≡ word_of word.entry }
    {
        match word {
            None => Argument::TooLong,
            Some(text) if is_dashed(text) => option_of(text),
            _ => Argument::File,
        }
    }
}

#[tactic(auto, using(crate::proofs::Words::words))]
fn is_dashed(text: &[u8]) -> bool
    ensures { result ≡ is_dashed text.now }
{
    text.first() == Some(&b'-')
}

/// A word that begins with a minus sign.
#[tactic(auto, using(crate::proofs::Words::words), unfolding(crate::specs::Options::option_of))]
fn option_of(text: &[u8]) -> Argument
    ensures { result ≡ option_of text.now }
{
    // `==` and no `match`, which leaves 34 goals open, one for each letter that differs
    if text == b"--help".as_slice() {
        return Argument::Help;
    }
    if text == b"--numbers".as_slice() {
        return Argument::Numbers;
    }
    if text == b"--tables".as_slice() {
        return Argument::Tables;
    }
    if text == b"--join".as_slice() {
        return Argument::Join;
    }
    Argument::Unknown
}

/// What the words ask for; they are counted from 1.
#[derive(Clone, Copy, Debug, PartialEq, Eq, Default)]
pub struct Options {
    pub help: bool,
    pub numbers: bool,
    pub tables: bool,
    pub join: bool,
    /// The word that names the file.
    pub file: Option<usize>,
    /// The first word that is not taken.
    pub wrong: Option<usize>,
}

impl Options {
    /// What no words ask for.
    pub fn none() -> Options
        ensures { (result.help ≡ false) × (result.numbers ≡ false) × (result.tables ≡ false) × (result.join ≡ false)
            × (result.file ≡ None) × (result.wrong ≡ None) }
    {
        Options::default()
    }

    /// What is asked for with word i too. A second file is not taken, nor is a word that is unknown or too long.
    pub fn taken(self, word: Argument, i: usize) -> Options
        ensures { result ≡ taken_by self i word }
    {
        match word {
            Argument::Help => Options { help: true, ..self },
            Argument::Numbers => Options {
                numbers: true,
                ..self
            },
            Argument::Tables => Options {
                tables: true,
                ..self
            },
            Argument::Join => Options { join: true, ..self },
            Argument::File if self.file.is_none() => Options {
                file: Some(i),
                ..self
            },
            _ => Options {
                wrong: self.wrong.or(Some(i)),
                ..self
            },
        }
    }
}
