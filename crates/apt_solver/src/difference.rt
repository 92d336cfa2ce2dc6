//! How packages that are to be there differ from what is installed, as apt reads it.
ghost use Rattle.std.specs.Prelude.{◌≡◌, ◌++◌, map, IfOk, OnOk};
ghost use Rattle.debian_scenario.specs.Plain.{plain_package};
ghost use Rattle.apt_solver.specs.Difference as spec;

use debian_directory::{Directory, Rules, Together};
use debian_scenario::Package;
use std::alloc::{AllocError, Global};

/// That these packages are to be there: what is installed, and then what is removed.
pub(crate) fn difference<'t>(
    alloc: Global,
    rules: &Rules<'_, 't>,
    there: &[Package<'t>],
) -> Result<Vec<u8>, AllocError>
    ensures { IfOk result (λ said. said.items ≡ spec.answer_text rules.now.request.now.architecture.now
        (map plain_package rules.now.packages.now) (map plain_package there.now)) }
{
    let mut said = Vec::new(alloc);
    write_new(there, &mut said)?;
    let directory = Directory::new(alloc, there)?;
    let together = Together {
        native: rules.request.architecture,
        packages: there,
        directory: &directory,
    };
    write_removed(rules, &together, &mut said)?;
    Ok(said)
}

/// Writes that those of these packages are installed that aren't.
fn write_new(there: &[Package<'_>], said: &mut Vec<u8>) -> Result<(), AllocError>
    ensures { OnOk result (said.new.items ≡ said.old.items ++ spec.new_text (map plain_package there.now)) }
{
    for version in there {
        write_if_new(version, said)?;
    }
    Ok(())
}

fn write_if_new(version: &Package<'_>, said: &mut Vec<u8>) -> Result<(), AllocError>
    ensures { OnOk result (said.new.items ≡ said.old.items ++ spec.text_if_new (plain_package version.now)) }
{
    if !version.state.is_installed {
        write_stanza(b"Install: ", version, said)?;
    }
    Ok(())
}

/// Writes that each installed package is removed of whose name there is no version.
fn write_removed<'t>(
    rules: &Rules<'_, 't>,
    together: &Together<'_, 't>,
    said: &mut Vec<u8>,
) -> Result<(), AllocError>
    requires { together.now.native.now ≡ rules.now.request.now.architecture.now }
    ensures { OnOk result (said.new.items ≡ said.old.items
        ++ spec.removed_text rules.now.request.now.architecture.now (map plain_package together.now.packages.now)
        (map plain_package rules.now.packages.now)) }
{
    for version in rules.packages {
        write_if_removed(rules, together, version, said)?;
    }
    Ok(())
}

fn write_if_removed<'t>(
    rules: &Rules<'_, 't>,
    together: &Together<'_, 't>,
    version: &Package<'t>,
    said: &mut Vec<u8>,
) -> Result<(), AllocError>
    requires { together.now.native.now ≡ rules.now.request.now.architecture.now }
    ensures { OnOk result (said.new.items ≡ said.old.items
        ++ spec.text_if_removed rules.now.request.now.architecture.now (map plain_package together.now.packages.now)
        (plain_package version.now)) }
{
    if version.state.is_installed && !together.has(rules.name_of(version)) {
        write_stanza(b"Remove: ", version, said)?;
    }
    Ok(())
}

/// Writes what happens to a package.
fn write_stanza(action: &[u8], version: &Package<'_>, said: &mut Vec<u8>) -> Result<(), AllocError>
    ensures { OnOk result (said.new.items ≡ said.old.items ++ spec.stanza_text action.now (plain_package version.now)) }
{
    let identity = &version.identity;
    write_field(action, identity.id, said)?;
    write_field(b"Package: ", identity.name, said)?;
    write_field(b"Version: ", identity.version, said)?;
    write_field(b"Architecture: ", identity.architecture, said)?;
    said.push(b'\n')?;
    Ok(())
}

/// Writes a field.
fn write_field(name: &[u8], value: &[u8], said: &mut Vec<u8>) -> Result<(), AllocError>
    ensures { OnOk result (said.new.items ≡ said.old.items ++ spec.field_text name.now value.now) }
{
    said.extend_from_slice(name)?;
    said.extend_from_slice(value)?;
    said.push(b'\n')?;
    Ok(())
}
