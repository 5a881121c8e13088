//! Maps and sets whose keys are ids, with std's hasher.
use crate::Id;
use std::collections::{HashMap, HashSet};

/// A map from the ids of an arena of `K`.
pub type IdHashMap<K, V> = HashMap<Id<K>, V>;

/// A set of ids of an arena of `T`.
pub type IdHashSet<T> = HashSet<Id<T>>;
