//! What the definitions compute: the checker evaluates them, so that a slip in a definition fails here.
ghost use Rattle.test_part_calls.specs.Examples.{Examples};
ghost use Rattle.test_part_calls.specs.NamedVersions.{NamesVersions};

/// The worked examples hold of clauses.
pub fn examples()
    ensures { Examples }
{}

/// Some answers name these versions.
pub fn versions_are_named()
    ensures { NamesVersions }
{}
