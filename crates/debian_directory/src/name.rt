//! Names: of each of them one version may be picked.
ghost use Rattle.std.specs.Prelude.{◌≡◌};
ghost use Rattle.debian_scenario.specs.Plain.{plain_package};
ghost use Rattle.debian_directory.specs.Answers.{name_of};
ghost use Rattle.debian_directory.specs.Plain.{plain_name};

use debian_installable::architecture_of;
use debian_scenario::Package;

/// A package's name, and an architecture.
#[derive(Clone, Copy, Debug, PartialEq, Eq, Hash)]
pub struct Name<'t> {
    pub name: &'t [u8],
    pub architecture: &'t [u8],
}

impl<'t> Name<'t> {
    /// The name of a package. The architecture `all` counts as the native one.
    pub fn of(native: &'t [u8], one: &Package<'t>) -> Name<'t>
        ensures { plain_name result ≡ name_of native.now (plain_package one.now) }
    {
        Name {
            name: one.identity.name,
            architecture: architecture_of(native, one),
        }
    }
}
