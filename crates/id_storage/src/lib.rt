//! Storage that is kept by ids: lists of values ([`Arena`]), finite maps ([`Mapping`]), and maps of whose values only
//! copies are handed out ([`FrozenCopyMap`]); and the answers to questions about ids ([`StoredAnswers`]).
//!
//! `arena` and `mapping` are for dense ids, and lie in vectors; the walks through them, [`ArenaIter`] and
//! [`MappingIter`], are in files of their own. `frozen_copy_map` is for keys of any type, and is a hashed table. The
//! words of their contracts are in `specs/Arena` and `specs/Mapping`; `specs/MappingLends` says what a map ends as
//! where a `&mut` to a value of it was handed out.
//!
//! `stored_answers` is for ids of any kind: what a cache stores of one kind of query, each of which is made once. The
//! definitions in its contracts are `lookup` and `keys_of` of std, and `lacks_answer` in `specs/StoredAnswers`, which
//! says when no further answer can be stored.
#![tactic(auto)]

mod arena;
mod arena_iter;
mod frozen_copy_map;
mod mapping;
mod mapping_iter;
mod stored_answers;

pub use arena::Arena;
pub use arena_iter::ArenaIter;
pub use frozen_copy_map::FrozenCopyMap;
pub use mapping::Mapping;
pub use mapping_iter::MappingIter;
pub use stored_answers::StoredAnswers;
