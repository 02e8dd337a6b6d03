// Reads a survey file of before on standard input, whose records come in any order, and prints the file that is accepted, or where the header is wrong. Where a read or a
// write fails it prints no more on standard output, and a line that says why on standard error.
#![tactic(auto)]

use std::io;

// What is printed has 45,072 bytes at most (`room-enough`, rewrite_bytes/proofs/Theorems.antt), so there is always room for it here; and of an input that is longer than the
// buffer the first bytes tell all (`longer`, there).
fn main(rt: HostRuntime) -> io::Result<()> {
    let mut file = [0u8; 65536];
    let size = match input::read_whole(&mut rt.stdin(), &mut file) {
        Ok(size) => size,
        Err(why) => return input::say_failure(&rt, "rewrite: cannot read", &why),
    };
    let mut out = [0u8; 65536];
    let Ok(length) = rewrite_bytes::rewrite(&file[..size], &mut out) else {
        return Ok(());
    };
    rt.write_all(&out[..length]).or_else(|why| input::say_failure(
        &rt,
        "rewrite: cannot write",
        &why,
    ))
}
