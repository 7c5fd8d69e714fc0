// Notices and hand-backs on a module lent by `&mut`: the page is handled beside the step of one vCPU's record.
#![tactic(auto)]

ghost use Rattle.std.specs.Prelude.{◌≡◌};
ghost use Rattle.model.specs.Events.{Act, at, step, out_of, noticed_out};

use doorbell::take_marks;
use gate::index_of;
use ipi::counts_of;
use model::{Counts, Module, Refusal, Vmpl};
use vcpu::notices::{count_marks, mark_words};
use vcpu_pages::hand_backs::{empty_vcpu, hand_over};
use vcpu_pages::notices::take;
use vector_set_algebra::union;

// Kept: by value it is `notice_vcpu` of `vcpu_pages`: the gate has each event by value and on a lent module (13.33), where it stores what changes alone.
// A host notice (section 4; 13.33). The page after it has what was taken cleared. A word of P and of PL, the marks of the NMI and the machine check
// and the summary of P are stored, and P as a whole and its summary where marked vectors are taken. The marks and the summary come from the copy,
// which need not be read again after the page's stores.
pub fn notice_in(m: &mut Module, vcpu: u32, page: &mut [u8]) -> Result<Counts, Refusal>
    ensures { noticed_out (record { answer = result; after = m.new })
        page.new ≡ step m.old (at vcpu (Act.notice page.old)) }
{
    let i = index_of(m, vcpu)?;
    let vmpl = Vmpl { level: m.vmpl };
    let v = m.vcpus[i];
    let Some(requested) = take(page, vmpl, v.phase, v.allowed)? else {
        return Ok(Counts { new: 0, merged: 0 });
    };
    let posting = requested.posting;
    let summary = v.summary | ipi::summary_of(posting);
    let w = &mut m.vcpus[i];
    let before = w.irr[posting.word];
    w.irr[posting.word] |= posting.bits;
    w.irr_level[posting.word] |= requested.level;
    w.nmi = v.nmi | posting.nmi;
    w.machine_check = v.machine_check | posting.machine_check;
    w.summary = summary;
    if !requested.many {
        return Ok(counts_of(posting, before, v.nmi, v.machine_check));
    }
    let edge = take_marks(page, vmpl, v.allowed, requested);
    let irr = w.irr;
    w.irr = union(irr, edge);
    w.summary = mark_words(summary, edge);
    Ok(count_marks(posting, before, v.nmi, v.machine_check, edge, irr))
}

// A hand-back: what the vCPU has pending and in service goes to the page (section 10; 13.33).
pub fn hand_back_in(
    m: &mut Module,
    vcpu: u32,
    page: &mut [u8],
    iflag: bool,
    shadow: bool,
) -> Result<u64, Refusal>
    ensures { out_of (record { answer = result; after = m.new })
        page.new ≡ step m.old (at vcpu (Act.hand_back page.old iflag shadow)) }
{
    let i = index_of(m, vcpu)?;
    let v = m.vcpus[i];
    let value = hand_over(page, Vmpl { level: m.vmpl }, v, iflag, shadow)?;
    m.vcpus[i] = empty_vcpu(v);
    Ok(value)
}
