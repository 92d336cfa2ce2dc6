//! A test: what is said of indexes.
//!
//! Of each index of standard input a block is printed: the report of why there is no solution, how much of the request
//! to keep, notes, the answer with explanations, and a graph; or what was expected in an unreadable line. Those of
//! docs/CONFLICTS are among them.
#![tactic(auto)]

mod reasons;
mod saying;

use saying::write_indexes;
use std::io::Read;
use std::test::Fail;

fn main(rt: HostRuntime) -> Result<(), Fail> {
    let alloc = rt.alloc();
    let mut bytes = Vec::new(alloc);
    let _ = rt.reader().read_to_end(&mut bytes);
    let mut text = String::new(alloc);
    write_indexes(alloc, &bytes, &mut text)?;
    print!(rt; "{text}")?;
    Ok(())
}
