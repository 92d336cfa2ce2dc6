//! Version sets: which versions of a name are meant.
ghost use Rattle.std.specs.Prelude.{◌≡◌};
ghost use Rattle.debian_scenario.specs.Plain.{plain_package};
ghost use Rattle.debian_text.specs.Plain.{plain_relation};
ghost use Rattle.debian_provider.specs.Sets as spec;

use debian_installable::{is_concerned, is_same, means, serves_architecture};
use debian_scenario::Package;
use debian_text::Relation;
use resolvo_pool::VersionSet;

/// Which versions of a name.
#[derive(Clone, Copy, Debug, PartialEq, Eq, Hash)]
pub enum Set<'t> {
    /// All of them.
    All,
    /// Those by which a relation is met, of a package of this architecture.
    Meeting(Relation<'t>, &'t [u8]),
    /// Those that a conflict spares.
    Spared(Relation<'t>),
    /// Those that may stand beside another architecture of their name: none, or the `same` ones of this version.
    Beside(Option<&'t [u8]>),
}

/// A version is the place of its stanza.
impl VersionSet for Set<'_> {
    type V = usize;
}

impl Set<'_> {
    /// Whether the set has this version of the name.
    pub(crate) fn has(&self, native: &[u8], one: &Package<'_>) -> bool
        ensures { result ≡ spec.has native.now (spec.plain_set self.now) (plain_package one.now) }
    {
        match self {
            Set::All => true,
            Set::Meeting(relation, architecture) => { is_met(native, architecture, relation, one) }
            Set::Spared(relation) => !is_against(native, relation, one),
            Set::Beside(None) => false,
            Set::Beside(Some(version)) => {
                is_same(one.multi_arch) && one.identity.version == *version
            }
        }
    }
}

/// Whether the relation of a package of this architecture is met by this package.
fn is_met(native: &[u8], architecture: &[u8], relation: &Relation<'_>, one: &Package<'_>) -> bool
    ensures { result ≡ spec.is_met native.now architecture.now (plain_relation relation.now) (plain_package one.now) }
{
    serves_architecture(native, architecture, one, relation.qualifier) && means(relation, one)
}

/// Whether a conflict by this relation is with this package.
fn is_against(native: &[u8], relation: &Relation<'_>, one: &Package<'_>) -> bool
    ensures { result ≡ spec.is_against native.now (plain_relation relation.now) (plain_package one.now) }
{
    is_concerned(native, one, relation.qualifier) && means(relation, one)
}
