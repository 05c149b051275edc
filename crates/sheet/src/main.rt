//! Reads a message of octets from standard input, strictly, and prints its
//! delay sheet.
#![tactic(auto)]

use carriers::memory::OctetReader;
use sheets::sheet::sheet;
use std::io::{ErrorKind, Read};
use std::{env, io};

/// As many octets as a carrier has cells for: what lies beyond is no part of
/// a message, so an input without an end is not waited for.
const MOST_OCTETS: u64 = 37_500;

fn main(rt: HostRuntime) -> io::Result<()> {
    if env::args(&rt)?.count() > 1 {
        eprintln!(rt; "usage: sheet < MESSAGE")?;
        eprintln!(rt; "prints the delays of a message of octets, or why it is refused")?;
        return Err(ErrorKind::InvalidInput.into());
    }
    let heap = rt.alloc();
    let mut octets = Vec::new(heap);
    rt.stdin().take(MOST_OCTETS).read_to_end(&mut octets)?;
    rt.print(sheet(&OctetReader::new(&octets), heap)?)
}
