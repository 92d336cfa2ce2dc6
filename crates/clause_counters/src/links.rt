//! Lists of numbers that share one pool.
//!
//! A list is named by the place of its first link plus one, an empty one by 0; and each link names the list after it. A
//! new link goes before a list whose links lie in the pool already, so what a link names is at most its own place.

/// A number in a list, and the list after it.
#[derive(Clone, Copy, Debug, PartialEq, Eq)]
pub(crate) struct Link {
    /// The number.
    pub(crate) value: u32,
    /// The place plus one of the link after it, 0 if it is the last.
    pub(crate) next: u32,
}

/// Numbers are below this, 2^32 - 1: groups, clauses and links are at most as many.
pub(crate) const ID_LIMIT: usize = 4294967295;
