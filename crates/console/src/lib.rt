// What the simulator reads and writes as text: lines of standard input, bytes in hex, replies with their status in words, and the requests that
// `--join` writes. What is written is tested and not proved.
#![tactic(auto)]

pub mod join;
pub mod lines;
pub mod reply;
