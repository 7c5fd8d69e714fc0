// The values of the APIC's registers.
#![tactic(auto)]

ghost use Rattle.std.specs.Prelude.{◌≡◌, ◌<◌, unwrap_or};
ghost use Rattle.vector_set.specs.Sets.{highest, word_of};
ghost use Rattle.model.specs.Registers.{ppr_of, ldr, register_value};

use model::Vcpu;

pub mod registers;

// The processor priority for a TPR and the set in service (6.17, 6.18).
#[tactic(auto, unfolding(model::specs::Registers::ppr_of, vector_set::specs::Sets::highest))]
pub fn ppr(tpr: u8, isr: [u32; 8]) -> u8
    ensures { result ≡ ppr_of tpr (unwrap_or (highest isr) 0) }
{
    match vector_set_search::highest_of(isr).found {
        Some(s) if tpr / 16 < s / 16 => 16 * (s / 16),
        _ => tpr,
    }
}

// The LDR of an ID (6.16).
#[tactic(auto, unfolding(model::specs::Registers::ldr))]
fn ldr_of(id: u32) -> u64
    ensures { result ≡ ldr id }
{
    u64::from(id / 16) * 65536 + (1 << (id % 16))
}

// The members 32 k to 32 k + 31 of a set (6.14).
fn word_at(s: [u32; 8], k: u32) -> u64
    requires { k < 8 }
    ensures { result ≡ word_of s k }
{
    u64::from(s[k as usize])
}

// The value of a register that may be read (6.3 to 6.11); 0 for another number.
#[tactic(auto, unfolding(model::specs::Registers::register_value, model::specs::Registers::ppr, model::specs::Registers::tmr))]
pub fn register_value(v: Vcpu, id: u32, r: u32) -> u64
    ensures { result ≡ register_value id v r }
{
    match r {
        registers::ID => u64::from(id),
        registers::TPR => u64::from(v.tpr),
        registers::PPR => u64::from(ppr(v.tpr, v.isr)),
        registers::LDR => ldr_of(id),
        registers::ICR => v.icr,
        registers::ISR..=registers::ISR_LAST => word_at(v.isr, r - registers::ISR),
        registers::TMR..=registers::TMR_LAST => word_at(
            vector_set_algebra::union(v.irr_level, v.isr_level),
            r - registers::TMR,
        ),
        registers::IRR..=registers::IRR_LAST => word_at(v.irr, r - registers::IRR),
        _ => 0,
    }
}
