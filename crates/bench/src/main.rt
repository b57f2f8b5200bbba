// Runs the pallet bench of document 01, the examples of 1756-PM020, and continued reads and pages through `message`, and
// compares each reply, and tag memory where it is named; before these it shows segment and validity vectors. The starred
// lines of the bench are one theorem too (proofs/).
#![tactic(auto)]

mod ask;
mod controller;
mod examples;
mod joined;
mod lines;
mod paper;
mod segments;
mod sets;
mod tally;

use crate::tally::Tally;
use std::io;

fn main(rt: HostRuntime) -> io::Result<()> {
    let to = rt.stdout();
    segments::paths(&to)?;
    sets::judged(&to)?;
    let mut t = Tally::new(&to);
    lines::all(&mut t)?;
    examples::all(&mut t)?;
    joined::reads(&mut t)?;
    joined::pages(&mut t)?;
    t.close()
}
