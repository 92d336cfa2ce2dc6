//! A script's catalogue: the lines up to `begin`, which list packages.
ghost use Rattle.std.specs.Prelude.{◌≡◌, ◌+◌, ◌^◌, ◌<◌, ⊤, length, IfOk, IfErr, MatchOption};
ghost use Rattle.script_packages.specs.Listing.{listing_of, nothing_listed};
ghost use Rattle.script_packages.specs.CatalogueEnds.{NeverBegins, CommandsBegin, CatalogueFault};
ghost use Rattle.script_packages.specs.CatalogueEnds.{effect_of, ListsLine};
ghost use Rattle.script_packages.specs.CatalogueLines.{entry_meant};
ghost use Rattle.script_text.specs.Statements.{IsRestPrinted};
ghost use Rattle.script_text.specs.Lines.{lines as lines_of};

use crate::catalogue_line::{CatalogueLine, catalogue_line};
use crate::packages::Packages;
use script_text::{Line, LineFault, ScriptFault, Statement, next_statement};
use std::alloc::Global;

/// A catalogue that was read to its `begin`: what it lists, and where the commands are.
#[derive(Drop)]
pub struct Catalogue<'a> {
    pub packages: Packages,
    /// The lines after `begin`.
    pub commands: &'a [u8],
    /// How many lines the catalogue has, that of `begin` among them.
    pub line_count: u64,
    ghost fits: { line_count + length commands.now < 2 ^ 64 },
}

/// Reads a script's catalogue, up to `begin`; none where no line begins the commands.
pub fn read_catalogue(alloc: Global, text: &[u8]) -> Result<Option<Catalogue<'_>>, ScriptFault>
    ensures ok { IfOk result (λ o. MatchOption o (NeverBegins nothing_listed (lines_of text.now))
        (λ c. CommandsBegin nothing_listed 0 (lines_of text.now) c.line_count (lines_of c.commands.now) c.packages)) }
    ensures err { IfErr result (CatalogueFault (lines_of text.now)) }
{
    let mut packages = Packages::new(alloc);
    let listed = list_packages(&mut packages, text);
    if let Ok(Some((line_count, commands))) = listed {
        return Ok(Some(Catalogue {
            packages,
            commands,
            line_count,
        }));
    }
    // one drop for both: a drop spells out each part of the packages
    drop(packages);
    match listed {
        Err(fault) => Err(fault),
        Ok(_) => Ok(None),
    }
}

/// Lists what the lines say, up to `begin`, in packages that list nothing yet. Answers how many lines that took, and
/// the lines after them; none where no line begins the commands.
fn list_packages<'a>(
    packages: &mut Packages,
    text: &'a [u8],
) -> Result<Option<(u64, &'a [u8])>, ScriptFault>
    requires { listing_of packages.old ≡ nothing_listed }
    ensures ok { IfOk result (λ o. MatchOption o (NeverBegins nothing_listed (lines_of text.now))
        (λ r. CommandsBegin nothing_listed 0 (lines_of text.now) r.0 (lines_of r.1.now) packages.new)) }
    ensures fits { IfOk result (λ o. MatchOption o ⊤ (λ r. r.0 + length r.1.now < 2 ^ 64)) }
    ensures err { IfErr result (CatalogueFault (lines_of text.now)) }
{
    let mut count = 0;
    let mut rest = text;
    while let Some((said, others)) = next_statement(rest) {
        count += 1;
        rest = others;
        match catalogue_line(said) {
            Line::Skipped => {}
            Line::Unreadable => return Err(ScriptFault::Unreadable(count)),
            Line::Says(CatalogueLine::Begin) => return Ok(Some((count, others))),
            Line::Says(entry) => packages.add(&entry).map_err(|fault| fault.at(count))?,
        }
    }
    Ok(None)
}

/// Lists what a line up to `begin` says. Answers whether it says `begin`, which lists nothing.
pub fn list_line(packages: &mut Packages, said: Line<Statement<'_>>) -> Result<bool, LineFault>
    requires { IsRestPrinted said }
    ensures { ListsLine (effect_of (listing_of packages.old) (entry_meant said.entry)) (listing_of packages.old) result
        (listing_of packages.new) }
{
    match catalogue_line(said) {
        Line::Skipped => Ok(false),
        Line::Unreadable => Err(LineFault::Unreadable),
        Line::Says(CatalogueLine::Begin) => Ok(true),
        Line::Says(entry) => {
            packages.add(&entry)?;
            Ok(false)
        }
    }
}
