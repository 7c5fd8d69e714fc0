// An entry on one record in stages: what it answers before it looks at P and then, and what of the record it changes, as it is stored in place.
#![tactic(auto)]

pub mod answers;
pub mod words;
