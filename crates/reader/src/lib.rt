// Records of one width that are read each on its own, and a whole section of them.
#![tactic(auto)]

pub mod record;
pub mod section;
