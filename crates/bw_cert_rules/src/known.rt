//! What is known of a program's registers at a place.

/// For each of the 64 registers, the node whose value it has in every lane, if one is known.
pub type Known = [Option<u64>; 64];
