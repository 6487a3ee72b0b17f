//! Judges paint scripts: each line of standard input is the bytes of one script in hexadecimal digits, and each line of
//! standard output says how many lines that script has, or its first bad line with the first cause.
//!
//! A script that is read must also be spelled as it was.
#![tactic(auto)]

mod verdict;

use std::io::{self, BufRead, BufReader};
use verdict::judge;

fn main(rt: HostRuntime) -> io::Result<()> {
    let input = BufReader::new(rt.alloc(), rt.reader())?;
    for line in input.lines(rt.alloc()) {
        let verdict = judge(rt.alloc(), line?.as_str());
        println!(rt; "{verdict}")?;
    }
    Ok(())
}
