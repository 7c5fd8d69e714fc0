// What the events by value and in place share: which vCPUs a module answers for, where their records stand, and the code of a refusal.
#![tactic(auto)]

ghost use Rattle.std.specs.Prelude.{◌≡◌, ◌<◌, ◌≤◌, leb, Err, IfOk};
ghost use Rattle.model.specs.Codes.{code_of};
ghost use Rattle.model.specs.State.{served_count};
ghost use Rattle.model.specs.Events.{index_in};

use model::{Module, Refusal, Stepped};

// Kept: a public function that docs name; a `From` for it would be the same table once more.
// The code of a refusal (11.1 to 11.11, 11.21, 11.23).
pub fn code(c: Refusal) -> u32
    ensures { result ≡ code_of c }
{
    match c {
        Refusal::UnknownVcpu => 1,
        Refusal::ShortPage => 2,
        Refusal::StillActive => 3,
        Refusal::NothingInFlight => 4,
        Refusal::BadStart => 5,
        Refusal::NotActive => 0x8000_0001,
        Refusal::UnknownCall => 0x8000_0002,
        Refusal::BadRegister => 0x8000_0003,
        Refusal::BadParameter => 0x8000_0005,
        Refusal::RegistrationsFull => 0x8000_0007,
        Refusal::NotRegistered => 0x8000_1000,
        Refusal::BadList => 6,
        Refusal::HasLeft => 7,
    }
}

// Kept: plain numbers, here and where a module starts: these functions say which of them are in range.
// The count n that a module is answered with: 0 where n or the VMPL is out of range (2.15).
pub fn served(n: u32, vmpl: u32) -> u32
    ensures { result ≡ served_count n vmpl }
{
    if n <= 32 && 1 <= vmpl && vmpl <= 3 {
        return n;
    }
    0
}

// A module with this n and VMPL has no vCPU of that number (2.15, 11.1).
pub fn lacks(n: u32, vmpl: u32, vcpu: u32) -> bool
    ensures { result ≡ leb (served_count n vmpl) vcpu }
{
    served(n, vmpl) <= vcpu
}

// Kept: functions of a module and a vCPU's number, here and in the gates, and no methods: they are public, and docs name them.
// The place of the vCPU's record; refused where the module has no vCPU of that number (2.15, 11.1).
#[tactic(auto, unfolding(model::specs::State::size))]
pub fn index_of(m: &Module, vcpu: u32) -> Result<usize, Refusal>
    ensures value { result ≡ index_in m.now vcpu }
    ensures in_bounds { IfOk result (λ i. i < 32) }
    ensures of_a_guest { IfOk result (λ i. (1 ≤ m.now.vmpl) × (m.now.vmpl ≤ 3)) }
{
    if lacks(m.n, m.vmpl, vcpu) {
        return Err(Refusal::UnknownVcpu);
    }
    Ok(vcpu as usize)
}

// A refused event leaves the module as it was (11.19).
pub fn refused<T>(m: Module, c: Refusal) -> Stepped<T>
    ensures { result ≡ record { answer = Err c; after = m } }
{
    Stepped {
        answer: Err(c),
        after: m,
    }
}
