//! Compares versions of Debian packages. Each line of standard input has two, with a blank between them; its answer is
//! `<`, `=` or `>`. A line without a blank ends the program.
#![tactic(auto)]

use debian_versions::compare;
use std::cmp::Ordering;
use std::io;

fn main(rt: HostRuntime) -> io::Result<()> {
    for line in rt.lines(rt.alloc()) {
        let line = line?;
        let Some((a, b)) = line.split_once(' ') else {
            return Ok(());
        };
        let sign = match compare(a.as_bytes(), b.as_bytes()) {
            Ordering::Less => "<",
            Ordering::Equal => "=",
            Ordering::Greater => ">",
        };
        println!(rt; "{sign}")?;
    }
    Ok(())
}
