// The hand-back: the 64 bytes that a vCPU leaves to the host.
#![tactic(auto)]

ghost use Rattle.std.specs.Prelude.{◌≡◌, ◌+◌, ◌*◌, ◌≤◌, length};
ghost use Rattle.vector_set.specs.Bits.{one};
ghost use Rattle.vector_set.specs.Sets.{has};
ghost use Rattle.model.specs.Doorbell.{bytes_from, handed_bit, written};
ghost use Rattle.model.specs.Events.{handed};

use descriptor::{DESCRIPTOR_BYTES, LEVEL, MACHINE_CHECK, MANY, NMI};
use doorbell::VMPL_BYTES;
use model::{Vcpu, Vmpl};
use vector_set_algebra::{difference, from_lowest};
use vector_set_search::{highest_of, is_empty};

// The bytes of each word, the lowest first (1.11).
fn write_set(d: &mut [u8; DESCRIPTOR_BYTES], s: [u32; 8])
    ensures { d.new ≡ bytes_from (has s) 0 32 }
{
    // As `chunks_exact_mut` with `zip`, and as `copy_from_slice` of each word, it takes ten times as many instructions.
    for i in 0..DESCRIPTOR_BYTES {
        d[i] = s[i / 4].to_le_bytes()[i % 4];
    }
}

// Bits 8 to 15 of the descriptor (10.5, 10.6, 10.8, 10.17).
fn flags(nmi: bool, machine_check: bool, level: bool, many: bool) -> u8
    ensures { result ≡ one nmi + 2 * one machine_check + 4 * one level + 64 * one many }
{
    u8::from(nmi) * NMI
        + u8::from(machine_check) * MACHINE_CHECK
        + u8::from(level) * LEVEL
        + u8::from(many) * MANY
}

// The descriptor of what is pending (10.4 to 10.9, 10.17).
fn write_pending(d: &mut [u8; DESCRIPTOR_BYTES], v: Vcpu)
    ensures { d.new ≡ bytes_from (handed_bit v.irr v.irr_level v.nmi v.machine_check) 0 32 }
{
    let edge = from_lowest(difference(v.irr, v.irr_level));
    let level = highest_of(v.irr_level).found;
    write_set(d, edge);
    d[0] = level.unwrap_or(0);
    d[1] = flags(v.nmi, v.machine_check, level.is_some(), !is_empty(edge));
}

// The 64 bytes: the descriptor, and what is in service (10.10).
// Kept: its length as a fact; tried as an array, by `as_mut_array` of the part in `hand_over`, after which the proof does not know what the page holds.
fn write_handed(bytes: &mut [u8], v: Vcpu)
    requires { length bytes.old ≡ 64 }
    ensures { bytes.new ≡ handed v }
{
    let serving = from_lowest(difference(v.isr, v.isr_level));
    let (lower, upper) = bytes.split_at_mut(DESCRIPTOR_BYTES);
    write_pending(lower.as_mut_array().unwrap(), v);
    write_set(upper.as_mut_array().unwrap(), serving);
}

// Writes what a vCPU hands back into the page (10.3 to 10.11, 10.17).
// Kept: the page's length as a clause: a page of just 256 bytes would ask more, and a struct round the page would be made at each call.
pub fn hand_over(page: &mut [u8], vmpl: Vmpl, v: Vcpu)
    requires { 256 ≤ length page.old }
    ensures { page.new ≡ written vmpl.level (handed v) page.old }
{
    let first = doorbell::descriptor_at(vmpl);
    let end = first + VMPL_BYTES;
    write_handed(&mut page[first..end], v);
}
