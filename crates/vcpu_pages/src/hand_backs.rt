// A hand-back on the page, and the record that it leaves.
ghost use Rattle.std.specs.Prelude.{◌≡◌};
ghost use Rattle.model.specs.Codes.{result_of};
ghost use Rattle.model.specs.Doorbell.{written};
ghost use Rattle.model.specs.Events.{hand_back_result, handed, emptied, hand_back_refusal};
ghost use Rattle.vcpu.specs.Records.{page_on};
ghost use Rattle.vcpu_pages.specs.Pages.{hand_back_verdict, hand_on};

use doorbell::PAGE_BYTES;
use model::{Phase, Refusal, Vcpu, Vmpl};

// The record once it is handed back: nothing in its sets, no mark, left (10.13, 10.14).
#[tactic(auto, using(model::proofs::ItemLaws::unmark_all_is), unfolding(model::specs::Events::emptied))]
pub fn empty_vcpu(v: Vcpu) -> Vcpu
    ensures { result ≡ emptied v }
{
    let none = vector_set::no_vectors();
    Vcpu {
        allowed: none,
        irr: none,
        isr: none,
        irr_level: none,
        isr_level: none,
        nmi: false,
        machine_check: false,
        phase: Phase::Left,
        summary: 0,
        ..v
    }
}

// VMPL, TPR, shadow and IF in one number (10.12).
#[tactic(auto, unfolding(model::specs::Events::hand_back_result))]
fn summary(vmpl: Vmpl, tpr: u8, iflag: bool, shadow: bool) -> u64
    ensures { result ≡ hand_back_result vmpl.level tpr iflag shadow }
{
    u64::from(vmpl.level) * 65536 + u64::from(tpr) * 256 + 2 * u64::from(shadow) + u64::from(iflag)
}

// The refusal of a hand-back whose vCPU is not leaving: it is active still, or has left (10.2, 11.3, 11.23).
fn hand_back_refusal(phase: Phase) -> Refusal
    ensures { result ≡ hand_back_refusal phase }
{
    match phase {
        Phase::Active => Refusal::StillActive,
        _ => Refusal::HasLeft,
    }
}

// What the record has pending and in service goes to the page (10.2 to 10.12); `empty_vcpu` is the record's step.
#[tactic(auto, unfolding(crate::specs::Pages::hand_on, vcpu::specs::Records::page_on, model::specs::Events::handed))]
pub fn hand_over(
    page: &mut [u8],
    vmpl: Vmpl,
    v: Vcpu,
    iflag: bool,
    shadow: bool,
) -> Result<u64, Refusal>
    ensures { (result_of result ≡ hand_on (hand_back_verdict v.phase page.old) (hand_back_result vmpl.level v.tpr iflag shadow))
        × (page.new ≡ page_on (hand_back_verdict v.phase page.old) (written vmpl.level (handed v) page.old) page.old) }
{
    let Phase::Leaving = v.phase else {
        return Err(hand_back_refusal(v.phase));
    };
    if page.len() < PAGE_BYTES {
        return Err(Refusal::ShortPage);
    }
    hand_back::hand_over(page, vmpl, v);
    Ok(summary(vmpl, v.tpr, iflag, shadow))
}
