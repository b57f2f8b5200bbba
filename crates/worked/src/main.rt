// The worked examples of document 02's requests, a line each: what is asked, and what is answered.
#![tactic(auto)]

mod asked;
mod clicks;
mod long_names;
mod long_pages;
mod one_read;
mod path_steps;
mod plant;

use std::io;

fn main(rt: HostRuntime) -> io::Result<()> {
    let to = rt.stdout();
    long_names::other_symbols(&to)?;
    long_names::other_tables(&to)?;
    long_pages::bottling_hall(&to)?;
    long_pages::tasks(&to)?;
    path_steps::taken(&to)?;
    path_steps::refused(&to)?;
    path_steps::symbols(&to)?;
    path_steps::ports(&to)?;
    one_read::fields(&to)?;
    one_read::continued(&to)?;
    one_read::replaced(&to)?;
    one_read::again(&to)?;
    clicks::rows(&to)?;
    clicks::no_rows(&to)?;
    clicks::masks(&to)?;
    clicks::requests(&to)
}
