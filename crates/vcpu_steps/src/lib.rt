// What single requests do to a record, and a release to the count.
#![tactic(auto)]

ghost use Rattle.std.specs.Prelude.{◌≡◌, cond, ◌-◌, eqb};
ghost use Rattle.vector_set.specs.Sets.{insert, remove};
ghost use Rattle.model.specs.State.{with_allowed, with_tpr};
ghost use Rattle.model.specs.Registers.{ended, ended_level};
ghost use Rattle.model.specs.Requests.{leave_if};

use model::{Phase, Vcpu};
use vcpu::{VcpuStepped, records};

// The highest vector in service ends; the answer names it if it was level-sensitive (6.25 to 6.28).
#[tactic(auto, unfolding(model::specs::Registers::ended, model::specs::Registers::ended_at, model::specs::Registers::ended_level, model::specs::Registers::ended_level_at))]
pub fn end_vcpu(v: Vcpu) -> VcpuStepped<u64>
    ensures { result ≡ record { answer = ended_level v; vcpu = ended v } }
{
    let Some(x) = vector_set_search::highest_of(v.isr).found else {
        return VcpuStepped { answer: 0, vcpu: v };
    };
    let vcpu = Vcpu {
        isr: vector_set::remove(v.isr, x),
        isr_level: vector_set::remove(v.isr_level, x),
        ..v
    };
    if vector_set::contains(v.isr_level, x) {
        return VcpuStepped {
            answer: u64::from(x),
            vcpu,
        };
    }
    VcpuStepped { answer: 0, vcpu }
}

// The vCPU is leaving where the count is 0 (5.8).
pub fn leave_at(v: Vcpu, registrations: u8) -> Vcpu
    ensures { result ≡ leave_if (eqb registrations 0) v }
{
    if registrations == 0 {
        return records::with_phase(v, Phase::Leaving);
    }
    v
}

// One registration less; none less than 0 (5.9, 5.10).
pub fn released(registrations: u8) -> u8
    ensures { result ≡ registrations - 1 }
{
    registrations.saturating_sub(1)
}

// The vector is allowed, or no longer (5.16, 5.19).
pub fn permit(v: Vcpu, x: u8, allow: bool) -> Vcpu
    ensures { result ≡ with_allowed (cond allow (insert x v.allowed) (remove x v.allowed)) v }
{
    let allowed = if allow {
        vector_set::insert(v.allowed, x)
    } else {
        vector_set::remove(v.allowed, x)
    };
    Vcpu { allowed, ..v }
}

pub fn set_tpr(v: Vcpu, x: u8) -> Vcpu
    ensures { result ≡ with_tpr x v }
{
    Vcpu { tpr: x, ..v }
}
