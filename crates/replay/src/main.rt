// Replays the four lists of the Rust oracle's answers that its arguments name, of points and cells, of layers, of rings and lines, and of searches, and
// prints of each how many of the calls answer otherwise. They were made by `oracle/build` and `target/oracle/checked/vectors crates/replay/data`, from
// the Rust files of oracle/octaindex3d with the patches of oracle/patches; tests/run makes them anew and compares.
#![tactic(auto)]

use each::Kind;
use std::env::Env;
use std::{fs, io, str};

mod cells;
mod each;
mod labels;
mod layers;
mod lent;
mod paths;
mod recorded;
mod searches;

// One line: the answers, those that differ, the first of them, and whether the list is cut off. Of a list of searches that shows in the search whose body is not
// whole.
fn report(rt: &HostRuntime, list: &[u8], kind: Kind, what: &str) -> io::Result<()> {
    let tally = each::replay(list, kind);
    print!(rt; "{} answers{what}, {} differ", tally.answers, tally.differ)?;
    if let Some(first) = tally.first {
        print!(rt; ", the first at record {first}")?;
    }
    if list.len() % 64 != 0 && !matches!(kind, Kind::Searches) {
        print!(rt; ", and the list ends inside a record")?;
    }
    println!(rt; "")
}

// Puts an argument at the front of the buffer. One that is longer, or not there, names no file.
fn argument_text<'a>(rt: &HostRuntime, argument: usize, buffer: &'a mut [u8]) -> &'a str {
    match rt.arg(argument, buffer) {
        Ok(length) => str::from_utf8(&buffer[..length]).unwrap_or(""),
        Err(_) => "",
    }
}

// A list that cannot be opened is named on standard error, with the system's words for why; one that cannot be read ends the program with that error.
fn replay(rt: &HostRuntime, argument: usize, kind: Kind, what: &str) -> io::Result<()> {
    let mut name = [0u8; 4096];
    let path = argument_text(rt, argument, &mut name);
    let mut list = [0u8; 65536];
    match fs::open(rt, path) {
        Ok(mut file) => {
            let size = input::read_whole(&mut file, &mut list)?;
            report(rt, &list[..size], kind, what)
        }
        Err(why) => input::say_failure(rt, path, &why),
    }
}

fn main(rt: HostRuntime) -> io::Result<()> {
    replay(&rt, 1, Kind::Cells, "")?;
    replay(&rt, 2, Kind::Layers, " on layers")?;
    replay(&rt, 3, Kind::Paths, " on rings and lines")?;
    replay(&rt, 4, Kind::Searches, " on searches")
}
