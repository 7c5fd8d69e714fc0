// Each event on a module lent by `&mut`: a thin function that passes the module to the event by value and stores the one that comes back.
// The question is lent it by `&`. The functions of `gate_mut_*` have the same contracts and work in place: they are for speed (docs/DECISIONS.md, Forms).
#![tactic(auto)]

ghost use Rattle.std.specs.Prelude.{◌≡◌, []};
ghost use Rattle.model.specs.Events.{Act, at, step, do_start, out_of, entered_out, noticed_out, listed_out, would_present};

use gate_allow::allow;
use gate_calls::call;
use gate_entries::{entry, non_delivery, would_present};
use gate_pages::{hand_back, notice};
use gate_start::start;
use model::{Counts, Module, Presentation, Refusal, Stepped};

// Stores the module that an event by value leaves, and gives its answer.
fn store<T>(m: &mut Module, stepped: Stepped<T>) -> Result<T, Refusal>
    ensures { (result ≡ stepped.answer) × (m.new ≡ stepped.after) }
{
    *m = stepped.after;
    stepped.answer
}

// An entry of the guest (section 8; 13.33).
pub fn entry_on(
    m: &mut Module,
    vcpu: u32,
    iflag: bool,
    shadow: bool,
    blocked: bool,
) -> Result<Presentation, Refusal>
    ensures { entered_out (record { answer = result; after = m.new }) ≡ step m.old (at vcpu (Act.entry iflag shadow blocked)) }
{
    let entered = entry(*m, vcpu, iflag, shadow, blocked);
    store(m, entered)
}

// Whether an entry with IF and without shadow and NMI-blocked would present anything (8.21 to 8.23; 13.33).
pub fn would_present_on(m: &Module, vcpu: u32) -> bool
    ensures { result ≡ would_present m.now vcpu }
{
    would_present(*m, vcpu)
}

// What the latest entry presented was not delivered (section 9; 13.33).
pub fn non_delivery_on(m: &mut Module, vcpu: u32) -> Result<u64, Refusal>
    ensures { out_of (record { answer = result; after = m.new }) [] ≡ step m.old (at vcpu Act.non_delivery) }
{
    let stepped = non_delivery(*m, vcpu);
    store(m, stepped)
}

// A guest call (sections 5 to 7; 13.33).
pub fn call_on(m: &mut Module, vcpu: u32, number: u32, ecx: u32, rdx: u64) -> Result<u64, Refusal>
    ensures { out_of (record { answer = result; after = m.new }) [] ≡ step m.old (at vcpu (Act.call number ecx rdx)) }
{
    let stepped = call(*m, vcpu, number, ecx, rdx);
    store(m, stepped)
}

// A host notice (section 4; 13.33). The page after it has what was taken cleared.
pub fn notice_on(m: &mut Module, vcpu: u32, page: &mut [u8]) -> Result<Counts, Refusal>
    ensures { noticed_out (record { answer = result; after = m.new })
        page.new ≡ step m.old (at vcpu (Act.notice page.old)) }
{
    let noticed = notice(*m, vcpu, page);
    store(m, noticed)
}

// A hand-back: what the vCPU has pending and in service goes to the page (section 10; 13.33).
pub fn hand_back_on(
    m: &mut Module,
    vcpu: u32,
    page: &mut [u8],
    iflag: bool,
    shadow: bool,
) -> Result<u64, Refusal>
    ensures { out_of (record { answer = result; after = m.new })
        page.new ≡ step m.old (at vcpu (Act.hand_back page.old iflag shadow)) }
{
    let stepped = hand_back(*m, vcpu, page, iflag, shadow);
    store(m, stepped)
}

// The values of a list in order, and the code of each in the second list (5.26 to 5.31; 13.33).
pub fn allow_on(
    m: &mut Module,
    vcpu: u32,
    values: &[u32],
    codes: &mut [u32],
) -> Result<u64, Refusal>
    ensures { listed_out (record { answer = result; after = m.new }) values.now
        codes.new ≡ step m.old (at vcpu (Act.allow values.now codes.old)) }
{
    let stepped = allow(*m, vcpu, values, codes);
    store(m, stepped)
}

// A fresh module of n vCPUs for a guest at the VMPL, or the stopped one where a number is out of range (3.1 to 3.6).
pub fn start_on(m: &mut Module, n: u32, vmpl: u32) -> Result<u64, Refusal>
    ensures { out_of (record { answer = result; after = m.new }) [] ≡ do_start n vmpl }
{
    store(m, start(n, vmpl))
}
