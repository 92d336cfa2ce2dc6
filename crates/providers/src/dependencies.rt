//! What a solvable needs, as a provider answers it.
ghost use Rattle.std.specs.Prelude.{◌≡◌, []};

use crate::conditional_requirement::ConditionalRequirement;
use std::alloc::{Allocator, Global};
use typed_ids::{StringId, VersionSetId};

/// What a solvable needs, or why that can't be told.
#[derive(Debug, Drop)]
pub enum Dependencies<A: Allocator = Global> {
    /// It needs this.
    Known(KnownDependencies<A>),
    /// It can't be told what it needs, for this reason: so it may not be picked.
    Unknown(StringId),
}

/// What a solvable needs.
#[derive(Debug, Drop)]
pub struct KnownDependencies<A: Allocator = Global> {
    /// What has to be picked with it.
    pub requirements: Vec<ConditionalRequirement, A>,
    /// The version sets outside which, of their packages, nothing may be picked with it.
    pub constrains: Vec<VersionSetId, A>,
}

impl<A: Allocator + Copy> KnownDependencies<A> {
    /// Nothing is needed. Takes no memory.
    pub fn new(alloc: A) -> Self
        ensures requirements { result.requirements.items ≡ [] }
        ensures constrains { result.constrains.items ≡ [] }
    {
        KnownDependencies {
            requirements: Vec::new(alloc),
            constrains: Vec::new(alloc),
        }
    }
}
