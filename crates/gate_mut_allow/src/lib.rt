// A list of ECX values on a module lent by `&mut`: each is taken as call 4 takes it, on one vCPU's record.
#![tactic(auto)]

ghost use Rattle.std.specs.Prelude.{◌≡◌};
ghost use Rattle.model.specs.Events.{Act, at, step, listed_out};

use gate::index_of;
use model::{InFlight, Module, Refusal};
use vcpu_allow::allow_values;

// The values of a list in order, and the code of each in the second list (5.26 to 5.31). The allowed set and what is in flight are all that an
// accepted value changes, so these alone are stored.
pub fn allow_in(
    m: &mut Module,
    vcpu: u32,
    values: &[u32],
    codes: &mut [u32],
) -> Result<u64, Refusal>
    ensures { listed_out (record { answer = result; after = m.new }) values.now
        codes.new ≡ step m.old (at vcpu (Act.allow values.now codes.old)) }
{
    let i = index_of(m, vcpu)?;
    let v = &mut m.vcpus[i];
    if let Some(allowed) = allow_values(values, codes, v.phase, v.allowed)? {
        v.allowed = allowed;
        v.flight = InFlight::Nothing;
    }
    Ok(0)
}
