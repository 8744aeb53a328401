// Document 01, "Bench trials", through the proved calls: a line for each trial with what came out, and whether that is
// what the paper states. A star marks the trials of the proved table. Then trials of document 02's requests.
#![tactic(auto)]

mod digests;
mod keys;
mod line;
mod pages;
mod works;

use std::io;

fn main(rt: HostRuntime) -> io::Result<()> {
    println!(rt;
        "Document 01, bench trials (* proved as well, as a theorem about the definitions)\n"
    )?;
    keys::run(&rt)?;
    pages::run(&rt)?;
    works::run(&rt)?;
    digests::run(&rt)?;
    println!(rt; "\nDocument 02\n")?;
    works::reports(&rt)?;
    pages::positions(&rt)
}
