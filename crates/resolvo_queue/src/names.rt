//! The names that come with clauses.
ghost use Rattle.std.specs.Prelude.{◌≡◌, [], ◌∷◌, ◌++◌, List};
ghost use Rattle.std.specs.Borrow.{ftrue};
ghost use Rattle.std.specs.List.{list_any};

use id_maps::{IdSet, SolverId};
use std::alloc::Allocator;
use std::marker::{Model, PhantomData};

/// The names that were handed in with each clause, the first clause's first. Only proofs read it: it takes no bytes,
/// and its calls do nothing when a program runs. By their names a program finds clauses in
/// [`ClausesByName`](crate::clauses_by_name::ClausesByName).
#[derive(Drop)]
pub(crate) struct NameLog<N> {
    of: PhantomData<N>,
    pub ghost items: { List (List N) },
}

impl<N> Model for NameLog<N> {
    ghost also_owns = { λ _. ftrue };
}

impl<N> NameLog<N> {
    /// No clause yet.
    pub(crate) fn new() -> NameLog<N>
        ensures { result.items ≡ [] }
    {
        NameLog { of: PhantomData }
    }

    /// The names of one clause more.
    pub(crate) fn and(&self, names: &[N]) -> NameLog<N>
        ensures { result.items ≡ self.now.items ++ names.now ∷ [] }
    {
        NameLog { of: PhantomData }
    }
}

/// Whether a name is hot.
pub(crate) fn has_hot_name<N: SolverId<A>, A: Allocator + Copy>(
    hot_names: &N::Set,
    names: &[N],
) -> bool
    ensures { result ≡ list_any (N.Set.has hot_names.now) names.now }
{
    names.iter().any(|name| hot_names.contains(*name))
}
