// Runs the strings that BIP 350 publishes, one a line on standard input, through `bech32m::is_valid` and as labels. A line begins with what BIP 350 says of
// its string as a Bech32m string: `+` valid, `-` not; one that begins with `#` says where the next come from. Each is printed with whether `is_valid` agrees,
// what it says, and the refusal and place of the string as a label. Last comes the label of the 16 bytes that BIP 350 gives for one of its addresses: its data are
// the address's own characters.
#![tactic(auto)]

use refusal::Cell;
use std::io;

// What the reader of labels says of a string.
fn print_label_refusal(rt: &HostRuntime, text: &[u8]) -> io::Result<()> {
    let Err(why) = label::from_bech32m(text) else {
        return print!(rt; "a cell");
    };
    let row = refusal::row_of(why);
    print!(rt; "{} at {}", row.number, row.place)
}

// One string, and whether it is valid by BIP 350.
fn print_string(rt: &HostRuntime, text: &[u8], published: bool) -> io::Result<()> {
    let valid = bech32m::is_valid(text);
    let agrees = if valid == published {
        "agrees"
    } else {
        "DIFFERS"
    };
    let said = if valid { "valid" } else { "not valid" };
    print!(rt; "{agrees}, ")?;
    print!(rt; "{said}, ")?;
    print_label_refusal(rt, text)?;
    print!(rt; ": ")?;
    rt.write_all(text)
}

// One line without its end.
fn print_line(rt: &HostRuntime, line: &[u8]) -> io::Result<()> {
    match line {
        [b'+', text @ ..] => print_string(rt, text, true)?,
        [b'-', text @ ..] => print_string(rt, text, false)?,
        _ => rt.write_all(line)?,
    }
    println!(rt; "")
}

fn print_lines(rt: &HostRuntime, list: &[u8]) -> io::Result<()> {
    for line in list.split_inclusive(|b| *b == b'\n') {
        print_line(rt, line.strip_suffix(b"\n").unwrap_or(line))?;
    }
    Ok(())
}

fn main(rt: HostRuntime) -> io::Result<()> {
    let mut list = [0u8; 65536];
    let size = input::read_whole(&mut rt.stdin(), &mut list)?;
    print_lines(&rt, &list[..size])?;
    let address = Cell {
        high: 0x751e76e8199196d4,
        low: 0x54941c45d1b3a323,
    };
    let text = label::to_bech32m(address);
    rt.write_all(&text)?;
    println!(rt; "")
}
