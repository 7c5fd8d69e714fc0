// One record by value: its types, what a notice adds to it and how an item is made pending in it.
// Entry and non-delivery, guest calls, and the pages of notices and hand-backs are crates of their own, above this one.
#![tactic(auto)]

use model::Vcpu;

pub mod items;
pub mod notices;
pub mod records;

// The record after an event that is accepted, with the answer: a notice's counts, an entry's presentation or an EOI's number. A refusal leaves the record
// as it was (11.19), so it has none.
#[derive(Clone, Copy)]
pub struct VcpuStepped<T> {
    pub answer: T,
    pub vcpu: Vcpu,
}

// What a call gives: its number, or the ICR value that is now to be sent, whose answer the module has.
#[derive(Clone, Copy)]
pub enum Reply {
    Gives(u64),
    Sends(u64),
}

// The caller's record and the registration count after a call that is accepted.
#[derive(Clone, Copy)]
pub struct VcpuCalled {
    pub reply: Reply,
    pub vcpu: Vcpu,
    pub registrations: u8,
}
