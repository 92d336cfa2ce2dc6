//! What a store of a script is over.
ghost use Rattle.std.specs.Prelude.{◌≡◌};

use script_packages::Packages;

/// What a store can be had over: a script's packages, or what is made of them.
pub trait OverPackages {
    ghost use Rattle.script_packages.specs.declared.packages.Packages.{Packages};

    /// What is made of the packages.
    ghost made_of: { Packages → Self };

    fn over(packages: Packages) -> Self
        ensures { result ≡ made_of packages };
}

impl OverPackages for Packages {
    ghost made_of = { λ p. p };

    fn over(packages: Packages) -> Packages {
        packages
    }
}
