//! The names of an index.
ghost use Rattle.std.specs.Prelude.{◌≡◌, IfOk};
ghost use Rattle.example_answers.specs.Names.{names_of};

use example_index::SmallIndex;
use resolvo_ids::{DenseIndex, NameId};
use resolvo_pool::Interner;
use std::alloc::{AllocError, Global};

/// How many names an index has at most.
const NAMES: usize = 1 << 32;

/// All names of an index: its packages, and those that it only needs.
pub(crate) fn names_of(alloc: Global, index: &SmallIndex) -> Result<Vec<NameId>, AllocError>
    ensures { IfOk result (λ names. names.items ≡ names_of index.now) }
{
    let mut names = Vec::new(alloc);
    for place in 0..NAMES {
        let name = NameId::from_index(place);
        if !index.knows_name(name) {
            return Ok(names);
        }
        names.push(name)?;
    }
    Ok(names)
}
