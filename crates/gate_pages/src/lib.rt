// Notices and hand-backs by value: the page is handled beside the step of one vCPU's record.
#![tactic(auto)]

ghost use Rattle.std.specs.Prelude.{◌≡◌};
ghost use Rattle.model.specs.Events.{Act, at, step, out_of, noticed_out};

use gate::{index_of, refused};
use model::{Counts, Module, Stepped, Vmpl};
use vcpu_pages::hand_backs::{empty_vcpu, hand_over};
use vcpu_pages::notices::notice_vcpu;

// A host notice (section 4). The page after it has what was taken cleared.
pub fn notice(mut m: Module, vcpu: u32, page: &mut [u8]) -> Stepped<Counts>
    ensures { noticed_out result page.new ≡ step m (at vcpu (Act.notice page.old)) }
{
    let i = match index_of(&m, vcpu) {
        Ok(i) => i,
        Err(c) => return refused(m, c),
    };
    match notice_vcpu(page, Vmpl { level: m.vmpl }, m.vcpus[i]) {
        Ok(noticed) => {
            m.vcpus[i] = noticed.vcpu;
            Stepped {
                answer: Ok(noticed.answer),
                after: m,
            }
        }
        Err(c) => refused(m, c),
    }
}

// A leaving vCPU is handed back to the host: its pending and in-service state goes to the page (section 10).
pub fn hand_back(
    mut m: Module,
    vcpu: u32,
    page: &mut [u8],
    iflag: bool,
    shadow: bool,
) -> Stepped<u64>
    ensures { out_of result page.new ≡ step m (at vcpu (Act.hand_back page.old iflag shadow)) }
{
    let i = match index_of(&m, vcpu) {
        Ok(i) => i,
        Err(c) => return refused(m, c),
    };
    let v = m.vcpus[i];
    match hand_over(page, Vmpl { level: m.vmpl }, v, iflag, shadow) {
        Ok(value) => {
            m.vcpus[i] = empty_vcpu(v);
            Stepped {
                answer: Ok(value),
                after: m,
            }
        }
        Err(c) => refused(m, c),
    }
}
