// Reads a survey file on standard input and prints how many cells it has, or where it is wrong. Where a read or a write fails it prints no more on
// standard output, and a line that says why on standard error.
#![tactic(auto)]

use std::io;

// A report has 84 bytes at most (`report-short`, report_text/proofs/Room.antt), so there is always room for it here.
fn main(rt: HostRuntime) -> io::Result<()> {
    let mut text = [0u8; 96];
    let size = match input::report(&mut rt.stdin(), &mut text) {
        Ok(Ok(size)) => size,
        Ok(Err(_)) => return Ok(()),
        Err(why) => return input::say_failure(&rt, "report: cannot read", &why),
    };
    rt.write_all(&text[..size]).or_else(|why| input::say_failure(&rt, "report: cannot write", &why))
}
