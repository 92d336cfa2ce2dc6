//! Ids whose equality says all.
use crate::same_value::SameValue;
use std::fmt::Debug;
use std::hash::Hash;

/// An id whose `==` is sameness, so that tables can be kept by it.
pub trait SameId: SameValue + Copy + Hash + Debug {}

impl<Id: SameValue + Copy + Hash + Debug> SameId for Id {}
