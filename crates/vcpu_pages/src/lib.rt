// The events that lend a page: what a notice takes from it and what a hand-back writes into it, beside the step of the record.
#![tactic(auto)]

pub mod hand_backs;
pub mod notices;
