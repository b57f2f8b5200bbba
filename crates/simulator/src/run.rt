// A run of the program: its streams, and what its arguments ask for. What it does with them stands where it is done: with a file's name in `main`, with
// a table image in `image`, with the bench in `bench`, with the tables of any of them in `session`.
use input::options::Options;
use std::io::Read;

#[derive(Drop)]
pub struct Run<'a, R: Read, T: Print, E: Print> {
    pub from: &'a mut R,
    pub to: &'a T,
    pub err: &'a E,
    pub options: Options,
}
