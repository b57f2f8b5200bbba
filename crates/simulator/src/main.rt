// The simulated controller as a program: requests as lines of hex on standard input, replies as hex on standard output.
// Without a file it serves the pallet bench of document 01, with one the table image in it.
#![tactic(auto)]

ghost use Rattle.std.specs.Prelude.{◌≤◌, length, IfOk};

mod bench;
mod head;
mod help;
mod image;
mod run;
mod session;

use crate::run::Run;
use console::{join, lines};
use input::options::{Argument, Options};
use std::alloc::Global;
use std::env::FillError;
use std::fs::File;
use std::io;
use std::io::Read;
use std::rt::{Env, Files};

/// One byte more than the largest image, so that rest bytes show.
const MOST: usize = image::LARGEST + 1;

/// The longest argument; a longer one is not taken.
const LONGEST: usize = 4096;

/// Reads the file with this name, as much of it as there is room for, and closes it.
fn read_file(rt: &impl Files, name: &str, image: &mut [u8]) -> io::Result<usize>
    ensures { IfOk result (λ n. n ≤ length image.old) }
{
    let mut file = File::open(rt, name)?;
    lines::read_full(&mut file, image)
}

/// Says what failed, and the system's words for it, without the number that stands behind them.
fn fail(err: &impl Print, alloc: Global, name: &[u8], e: io::Error) -> io::Result<()> {
    let said = e.to_string(alloc)?;
    err.write_all(name)?;
    match said.as_str().split_once(" (os error ") {
        Some((words, _)) => println!(err; ": {words}"),
        None => println!(err; ": {}", said.as_str()),
    }
}

/// How many arguments there are, with the program's name. `env::args` gives none of them where one is not UTF-8, which is written back as it is here.
fn arg_count(rt: &impl Env) -> usize {
    let mut text = [0u8; LONGEST];
    for i in 0..usize::MAX {
        if let Err(FillError::NotPresent) = rt.arg(i, &mut text) {
            return i;
        }
    }
    usize::MAX
}

/// What argument i is; the system says whether it is too long.
fn word_at(rt: &impl Env, i: usize) -> Argument {
    let mut text = [0u8; LONGEST];
    match rt.arg(i, &mut text) {
        Ok(n) => Argument::of(Some(&text[..n])),
        Err(_) => Argument::of(None),
    }
}

/// Says an argument behind what is wrong with it.
fn blame(rt: &impl Env, err: &impl Print, what: &str, i: usize) -> io::Result<()> {
    let mut text = [0u8; LONGEST];
    print!(err; "{what} `")?;
    if let Ok(n) = rt.arg(i, &mut text) {
        err.write_all(&text[..n])?;
    }
    println!(err; "`; --help says what is taken")
}

/// Says why argument i is not taken.
fn complain(rt: &impl Env, err: &impl Print, i: usize) -> io::Result<()> {
    match word_at(rt, i) {
        Argument::TooLong => println!(err; "argument {i} is longer than {LONGEST} bytes"),
        Argument::Unknown => blame(rt, err, "unknown option", i),
        _ => blame(rt, err, "extra argument", i),
    }
}

/// What all arguments ask for.
fn asked(rt: &impl Env) -> Options {
    let mut o = Options::none();
    for i in 1..arg_count(rt) {
        o = o.taken(word_at(rt, i), i);
    }
    o
}

impl<'a, R: Read, T: Print, E: Print> Run<'a, R, T, E> {
    /// Serves the tables in the file of this name.
    fn serve_file(self, rt: &(impl Files + AllocGlobal), name: &[u8]) -> io::Result<()> {
        let Ok(path) = std::str::from_utf8(name) else {
            self.err.write_all(name)?;
            return println!(self.err; ": the name of a file has to be UTF-8");
        };
        let mut file = [0u8; MOST];
        match read_file(rt, path, &mut file) {
            Ok(n) => self.serve_image(&file[..n]),
            Err(e) => fail(self.err, rt.alloc(), name, e),
        }
    }

    /// Serves the tables in the file that argument i names.
    fn serve_named(self, rt: &(impl Env + Files + AllocGlobal), i: usize) -> io::Result<()> {
        let mut name = [0u8; LONGEST];
        match rt.arg(i, &mut name) {
            Ok(n) => self.serve_file(rt, &name[..n]),
            Err(_) => complain(rt, self.err, i),
        }
    }
}

fn main(rt: HostRuntime) -> io::Result<()> {
    let mut from = rt.stdin();
    let to = rt.stdout();
    let err = rt.stderr();
    let options = asked(&rt);
    if let Some(i) = options.wrong {
        return complain(&rt, &err, i);
    }
    if options.help {
        return help::show(&to);
    }
    if options.join {
        return match options.file {
            // no controller answers, so no table image is taken
            Some(i) => complain(&rt, &err, i),
            None => join::start(&mut from, &to, &err),
        };
    }
    let run = Run {
        from: &mut from,
        to: &to,
        err: &err,
        options,
    };
    match options.file {
        Some(i) => run.serve_named(&rt, i),
        None => run.serve_bench(),
    }
}
