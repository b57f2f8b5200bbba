// What `--help` prints.
use std::io;

const TEXT: &str = "\
A simulated Logix controller: answers CIP messages on standard input, a line each.

  simulator [--numbers] [TABLES]    answers; TABLES is a table image, else the pallet bench
  simulator --tables [TABLES]       lists the tags and other symbols, and ends
  simulator --join                  joins masked writes in a row to one path, as requests, and ends
  simulator --help                  this

  --numbers    the line's number before each reply, as `12: `

A line of input is [@LIMIT] BYTES [# COMMENT]: bytes as two hex digits each; a reply limit of its own,
500 where there is none. This reads the tag Count of the bench:

  4C 04 91 05 43 6F 75 6E 74 00 01 00

A reply is its bytes, then ` # ` and its status in words. A line that is no request is answered by
`line N: ` and what is wrong with it. What keeps the program from answering is said on standard
error. The exit status is 0 in every case. crates/simulator/IMAGE.md has the table image.
";

pub fn show(to: &impl Print) -> io::Result<()> {
    to.print(TEXT)
}
