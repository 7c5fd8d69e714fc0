// An IPI made ready before it goes from record to record: whom it is for, as bits, and what it makes pending.
#![tactic(auto)]

ghost use Rattle.std.specs.Prelude.{◌≡◌, ◌&&◌, ◌<◌, eqb};
ghost use Rattle.vector_set.specs.Bits.{bit_at, bits};
ghost use Rattle.model.specs.State.{is_active};
ghost use Rattle.model.specs.Ipi.{icr_target, hits};
ghost use Rattle.ipi.specs.Posts.{posting_of, summary_in, counts_of, is_new};

use model::{Counts, Item, Phase, Target};

// What items add to a record: bits of one word of the IRR, and the marks of the NMI and of the machine check.
#[derive(Clone, Copy, Default)]
pub struct Posting {
    pub nmi: bool,
    pub machine_check: bool,
    pub word: usize,
    pub bits: u32,
}

// The bit of the vCPU k among 32. A destination may name a vCPU that no module has: then there is none.
pub fn bit_of(k: u32) -> u32
    ensures { result ≡ bits (λ j. eqb j k) 0 32 }
{
    1u32.checked_shl(k).unwrap_or(0)
}

// The bits of a logical destination: cluster 0 has the vCPUs 0 to 15, cluster 1 those from 16 to 31 (7.15).
fn logical_bits(d: u32) -> u32
    ensures { result ≡ bits (hits (Target.Logical d) 0) 0 32 }
{
    match d / 65536 {
        0 => d,
        1 => (d % 65536) << 16,
        _ => 0,
    }
}

// The vCPUs 0 to 31 that an ICR value of the vCPU caller is for, as bits (7.6, 7.13 to 7.15).
pub fn targets_of(value: u64, caller: u32) -> u32
    ensures { result ≡ bits (hits (icr_target value) caller) 0 32 }
{
    match icr::target_of(value) {
        Target::Caller => bit_of(caller),
        Target::All => 0xFFFF_FFFF,
        Target::Others => !bit_of(caller),
        Target::Physical(d) => bit_of(d),
        Target::Logical(d) => logical_bits(d),
    }
}

// The vCPU k, in the phase, is an active target (7.16).
pub fn reaches(targets: u32, k: u32, phase: Phase) -> bool
    requires { k < 32 }
    ensures { result ≡ (bit_at targets k && is_active phase) }
{
    (targets >> k) % 2 == 1 && phase == Phase::Active
}

// What makes the item pending; a vector as edge, its level mark untouched (4.27, 7.17).
#[tactic(auto, unfolding(crate::specs::Posts::posting_of))]
pub fn posting_of(item: Item) -> Posting
    ensures { result ≡ posting_of item }
{
    let none = Posting::default();
    match item {
        Item::Nmi => Posting { nmi: true, ..none },
        Item::MachineCheck => Posting {
            machine_check: true,
            ..none
        },
        Item::Vector(v) => Posting {
            word: vector_set::word_of(v),
            bits: vector_set::bit_of(v),
            ..none
        },
    }
}

// The summary of the vectors that a posting adds: the bit of its word, where it has one there (2.21).
pub fn summary_of(posting: Posting) -> u8
    ensures { result ≡ summary_in posting }
{
    if posting.bits == 0 {
        return 0;
    }
    if 8 <= posting.word {
        return 0;
    }
    1 << posting.word
}

// Kept: the word and the marks of the record as parameters: is_new asks for no machine check, so one struct of all three would be no plainer.
// How many items of a posting become pending at a record whose word and marks were these, and how many were pending (4.29, 4.37).
#[tactic(auto, unfolding(crate::specs::Posts::counts_of))]
pub fn counts_of(posting: Posting, word: u32, nmi: bool, machine_check: bool) -> Counts
    ensures { result ≡ counts_of posting word nmi machine_check }
{
    let new = u32::from(posting.bits & !word != 0);
    let merged = u32::from(posting.bits & word != 0);
    // Few notices ask for a mark, so one test comes before both.
    if !(posting.nmi | posting.machine_check) {
        return Counts { new, merged };
    }
    Counts {
        new: new
            + u32::from(posting.nmi & !nmi)
            + u32::from(posting.machine_check & !machine_check),
        merged: merged
            + u32::from(posting.nmi & nmi)
            + u32::from(posting.machine_check & machine_check),
    }
}

// Whether the posting of one item that an IPI sends makes it pending there (7.20): no IPI sends a machine check (7.27).
#[tactic(auto, unfolding(crate::specs::Posts::is_new))]
pub fn is_new(posting: Posting, word: u32, nmi: bool) -> bool
    ensures { result ≡ is_new posting word nmi }
{
    if posting.nmi {
        return !nmi;
    }
    posting.bits & !word != 0
}
