// Prints the name of each file that its arguments name, and what the report program prints of it. tests/report_files.py makes the files and works out
// what must be printed.
#![tactic(auto)]

use std::env::{Env, FillError};
use std::fs::File;
use std::{fs, io, str};

// Prints the report on a file that is open.
fn print_text(rt: &HostRuntime, opened: &mut File) -> io::Result<()> {
    let mut text = [0u8; 96];
    let Ok(Ok(size)) = input::report(opened, &mut text) else {
        return Ok(());
    };
    rt.write_all(&text[..size])
}

// The report on the file of this name, below its name.
fn print_report(rt: &HostRuntime, path: &str) -> io::Result<()> {
    match fs::open(rt, path) {
        Ok(mut opened) => {
            println!(rt; "{path}")?;
            print_text(rt, &mut opened)
        }
        Err(why) => input::say_failure(rt, path, &why),
    }
}

fn main(rt: HostRuntime) -> io::Result<()> {
    let mut argument = [0u8; 4096];
    for i in 1..usize::MAX {
        let length = match rt.arg(i, &mut argument) {
            Ok(length) => length,
            Err(FillError::TooLong) => 0,
            Err(FillError::NotPresent) => return Ok(()),
        };
        match str::from_utf8(&argument[..length]) {
            Ok(path) => print_report(&rt, path)?,
            Err(_) => eprintln!(rt; "argument {i}: not UTF-8")?,
        }
    }
    Ok(())
}
