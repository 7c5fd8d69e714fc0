// An IPI to its targets.
ghost use Rattle.std.specs.Prelude.{◌≡◌};
ghost use Rattle.model.specs.State.{size};
ghost use Rattle.vcpu.specs.Records.{send_below};

use gate::served;
use model::Module;

// The IPI of the vCPU caller with the ICR value: each record is reached or passed over. The bits of those where the item
// became pending (7.16 to 7.21).
pub fn send(m: &mut Module, caller: u32, value: u64) -> u64
    ensures { record { mask = result; after = m.new } ≡ send_below caller value m.old (size m.old) }
{
    let n = served(m.n, m.vmpl);
    let targets = ipi::targets_of(value, caller);
    let posting = ipi::posting_of(icr::item_of(value));
    let summary = ipi::summary_of(posting);
    let mut mask: u64 = 0;
    for k in 0..n {
        let v = &mut m.vcpus[k as usize];
        if ipi::reaches(targets, k, v.phase) {
            let word = v.irr[posting.word];
            let new = ipi::is_new(posting, word, v.nmi);
            v.irr[posting.word] = word | posting.bits;
            v.nmi |= posting.nmi;
            v.summary |= summary;
            mask |= u64::from(new) << k;
        }
    }
    mask
}
