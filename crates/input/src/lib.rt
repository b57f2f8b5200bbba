// What a program is given: its arguments, the rows of a table image, standard input cut into lines, what a line asks,
// and the requests of masked writes in a row joined into one.
#![tactic(auto)]

pub mod bytes;
pub mod clicks;
pub mod hex;
pub mod image_rows;
pub mod lines;
pub mod options;
