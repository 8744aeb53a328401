// Replays the Rust's recorded answers on the proved calls, and prints how many passed and failed. The files of data/ were
// made by `compare record`; compare/src/record/ says what they hold.
#![tactic(auto)]

mod bytes;
mod keys;
mod pages;
mod reading;
mod score;
mod works;

use score::Score;
use std::fs::File;
use std::io;
use std::io::Read;
use std::rt::Files;

// All records of a file, by what the next one makes of the score. Nothing tells that a file ends, so the turns are counted.
fn records<R: Read, F: Fn(&mut R, Score) -> io::Result<Score> + Drop>(
    next: F,
    file: &mut R,
) -> io::Result<Score>
    requires { F.IsAlwaysCallable next }
{
    let mut t = Score::new();
    for _ in 0..u64::MAX {
        if !t.more {
            break;
        }
        t = next(file, t)?;
    }
    Ok(t)
}

// A file that can't be opened counts as one answer that failed.
fn unopened(rt: &impl Eprint, path: &str, error: io::Error) -> io::Result<Score> {
    eprintln!(rt; "{path}: {error}")?;
    Ok(Score::new().count(false))
}

// The score of a file.
fn replay<T: Files + Eprint, F: Fn(&mut T::File, Score) -> io::Result<Score> + Drop>(
    rt: &T,
    path: &str,
    next: F,
) -> io::Result<Score>
    requires { F.IsAlwaysCallable next }
{
    match File::open(rt, path) {
        Ok(mut file) => records(next, &mut file),
        Err(error) => unopened(rt, path, error),
    }
}

fn report(rt: &impl Print, name: &str, t: Score) -> io::Result<()> {
    let (passed, failed) = (t.passed, t.failed);
    println!(rt; "{name:<10}{passed} passed, {failed} failed")
}

fn main(rt: HostRuntime) -> io::Result<()> {
    report(&rt, "separate", replay(&rt, "separate", keys::next)?)?;
    report(&rt, "pages", replay(&rt, "pages", pages::next)?)?;
    report(&rt, "builds", replay(&rt, "builds", pages::next_build)?)?;
    report(&rt, "sequences", replay(&rt, "sequences", works::all)?)
}
