//! Reads scenarios of apt from standard input, between which `%` stands, and prints of each how many packages it has,
//! or what is wrong with it.
#![tactic(auto)]

use debian_scenario::{ReadError, Scenario, ScenarioFault, read};
use std::io::{self, Read};

fn main(rt: HostRuntime) -> io::Result<()> {
    let mut text = Vec::new(rt.alloc());
    rt.reader().read_to_end(&mut text)?;
    for part in text.split(|byte| *byte == b'%') {
        match read(rt.alloc(), part) {
            Ok(scenario) => print_counts(&rt, &scenario)?,
            Err(fault) => print_fault(&rt, fault)?,
        }
    }
    Ok(())
}

/// Prints how many packages there are, and how many of each kind.
fn print_counts(rt: &impl Print, scenario: &Scenario<'_>) -> io::Result<()> {
    let packages = &scenario.packages;
    let count = packages.len();
    let installed = packages
        .iter()
        .filter(|package| package.state.is_installed)
        .count();
    let held = packages
        .iter()
        .filter(|package| package.state.is_held)
        .count();
    let provide = packages
        .iter()
        .filter(|package| !package.relations.provides.is_empty())
        .count();
    println!(rt; "{count} packages, {installed} installed, {held} held, {provide} provide others")
}

/// Prints why a scenario wasn't read.
fn print_fault(rt: &impl Print, error: ReadError) -> io::Result<()> {
    match error {
        ReadError::OutOfMemory => println!(rt; "out of memory"),
        ReadError::Faulty(ScenarioFault::Request(fault)) => println!(rt; "request: {fault}"),
        ReadError::Faulty(ScenarioFault::Package(before, fault)) => {
            println!(rt; "package behind {before}: {fault}")
        }
    }
}
