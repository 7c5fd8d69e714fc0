// A host notice on the page, and on the record by value.
ghost use Rattle.std.specs.Prelude.{◌≡◌};
ghost use Rattle.model.specs.Doorbell.{admitted, noticed_page};
ghost use Rattle.doorbell.specs.Takes.{taken_from, taken_page};
ghost use Rattle.vcpu.specs.Records.{notice_on, page_on, noticed_vcpu};
ghost use Rattle.vcpu_pages.specs.Pages.{notice_verdict, take_on};

use descriptor::Requested;
use doorbell::PAGE_BYTES;
use model::{Counts, Phase, Refusal, Vcpu, Vmpl};
use vcpu::VcpuStepped;
use vcpu::notices::{add_marks, add_request, count_marks};

// Takes what the page asks for beside its marks, if it announces work, for a vCPU in the phase, with the set allowed (4.2 to 4.24, 4.31). The marks of a
// page with bit 14 are taken next, by `doorbell::take_marks`.
#[tactic(auto, unfolding(crate::specs::Pages::take_on, vcpu::specs::Records::page_on))]
pub fn take(
    page: &mut [u8],
    vmpl: Vmpl,
    phase: Phase,
    allowed: [u32; 8],
) -> Result<Option<Requested>, Refusal>
    ensures { (result ≡ take_on (notice_verdict phase page.old) (taken_from vmpl.level allowed page.old))
        × (page.new ≡ page_on (notice_verdict phase page.old) (taken_page vmpl.level page.old) page.old) }
{
    let Phase::Active = phase else {
        return Err(Refusal::NotActive);
    };
    if page.len() < PAGE_BYTES {
        return Err(Refusal::ShortPage);
    }
    Ok(doorbell::take_request(page, vmpl, allowed))
}

// A notice on the record of one vCPU (section 4).
pub fn notice_vcpu(page: &mut [u8], vmpl: Vmpl, v: Vcpu) -> Result<VcpuStepped<Counts>, Refusal>
    ensures { (noticed_vcpu v result ≡ notice_on (notice_verdict v.phase page.old) (admitted vmpl.level v.allowed page.old) v)
        × (page.new ≡ page_on (notice_verdict v.phase page.old) (noticed_page vmpl.level page.old) page.old) }
{
    let Some(requested) = take(page, vmpl, v.phase, v.allowed)? else {
        return Ok(VcpuStepped {
            answer: Counts { new: 0, merged: 0 },
            vcpu: v,
        });
    };
    let posting = requested.posting;
    let before = v.irr[posting.word];
    let w = add_request(v, posting, requested.level);
    if !requested.many {
        return Ok(VcpuStepped {
            answer: ipi::counts_of(posting, before, v.nmi, v.machine_check),
            vcpu: w,
        });
    }
    let edge = doorbell::take_marks(page, vmpl, v.allowed, requested);
    Ok(VcpuStepped {
        answer: count_marks(posting, before, v.nmi, v.machine_check, edge, w.irr),
        vcpu: add_marks(w, edge),
    })
}
