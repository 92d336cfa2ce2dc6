//! Whole scenarios.
ghost use Rattle.std.specs.Prelude.{◌≡◌, ◌<◌, length, option_map, IfOk, IfSome};
ghost use Rattle.debian_text.specs.Fields.{fields};
ghost use Rattle.debian_scenario.specs.Plain.{plain_package, plain_packages, plain_request, plain_scenario};
ghost use Rattle.debian_scenario.specs.Plain.{plain_stanza};
ghost use Rattle.debian_scenario.specs.Results.{IsRead, result_map};
ghost use Rattle.debian_scenario.specs.Scenarios.{first_package, first_request, first_values, packages_from};
ghost use Rattle.debian_scenario.specs.Scenarios.{scenario_of};
ghost use Rattle.debian_scenario.specs.Stanzas.{stanzas};

use crate::fault::{ReadError, ScenarioFault, StanzaFault};
use crate::key::Key;
use crate::package::Package;
use crate::request::Request;
use crate::stanza::{Stanza, next_stanza};
use debian_text::next_field;
use std::alloc::Global;

/// A request, and the packages that it is about.
#[derive(Drop)]
pub struct Scenario<'t> {
    pub request: Request<'t>,
    pub packages: Vec<Package<'t>>,
}

/// Reads a scenario.
pub fn read(alloc: Global, text: &[u8]) -> Result<Scenario<'_>, ReadError>
    ensures { IsRead plain_scenario (scenario_of text.now) result }
{
    let (request, rest) = match next_request(text) {
        Ok(first) => first,
        Err(fault) => return Err(ReadError::Faulty(ScenarioFault::Request(fault))),
    };
    let packages = read_packages(alloc, rest)?;
    Ok(Scenario { request, packages })
}

/// The packages of the stanzas of a text.
fn read_packages(alloc: Global, text: &[u8]) -> Result<Vec<Package<'_>>, ReadError>
    ensures { IsRead plain_packages (packages_from 0 (stanzas (fields text.now))) result }
{
    let mut packages = Vec::new(alloc);
    let mut rest = text;
    'packages: loop {
        match next_package(rest) {
            Err(fault) => {
                return Err(ReadError::Faulty(ScenarioFault::Package(packages.len(), fault)));
            }
            Ok(None) => return Ok(packages),
            Ok(Some((package, others))) => {
                packages.push(package)?;
                rest = others;
            }
        }
    }
}

/// The request of the first stanza of a text, and what is behind it.
fn next_request(text: &[u8]) -> Result<(Request<'_>, &[u8]), StanzaFault>
    ensures { result_map (λ r. (plain_request r.0, stanzas (fields r.1.now))) result ≡
        first_request (stanzas (fields text.now)) }
{
    let Some((stanza, rest)) = first_stanza(text)? else {
        return Err(StanzaFault::Missing(Key::Request));
    };
    let request = Request::of(&stanza)?;
    Ok((request, rest))
}

/// The package of the first stanza of a text, and what is behind it; none if there is no stanza.
fn next_package(text: &[u8]) -> Result<Option<(Package<'_>, &[u8])>, StanzaFault>
    ensures value { result_map (option_map (λ r. (plain_package r.0, stanzas (fields r.1.now)))) result ≡
        first_package (stanzas (fields text.now)) }
    ensures shorter { IfOk result (λ first. IfSome first (λ r. length r.1.now < length text.now)) }
{
    let Some((stanza, rest)) = first_stanza(text)? else {
        return Ok(None);
    };
    let package = Package::of(&stanza)?;
    Ok(Some((package, rest)))
}

/// The first stanza of a text, and what is behind it; none if there is no stanza. Empty lines before it are skipped.
fn first_stanza(text: &[u8]) -> Result<Option<(Stanza<'_>, &[u8])>, StanzaFault>
    ensures value { result_map (option_map (λ r. (plain_stanza r.0, stanzas (fields r.1.now)))) result ≡
        first_values (stanzas (fields text.now)) }
    ensures shorter { IfOk result (λ first. IfSome first (λ r. length r.1.now < length text.now)) }
{
    let mut rest = text;
    'empty: while let Some((field, others)) = next_field(rest) {
        if !field.is_empty() {
            let (stanza, behind) = next_stanza(rest)?;
            return Ok(Some((stanza, behind)));
        }
        rest = others;
    }
    Ok(None)
}
