// The doorbell page: what a host notice asks for, as `descriptor` reads it, and the page after it.
#![tactic(auto)]

ghost use Rattle.std.specs.Prelude.{◌≡◌, true, ◌-◌, ◌^◌, ◌≤◌, length};
ghost use Rattle.vector_set.specs.Sets.{collect};
ghost use Rattle.model.specs.Doorbell.{bit_of, many_bit, announces, descriptor, descriptor_at, admits_edge, noticed_page};
ghost use Rattle.descriptor.specs.Requests.{requested_in};
ghost use Rattle.doorbell.specs.Takes.{taken_from, taken_page};

use descriptor::{DESCRIPTOR_BYTES, Requested};
use model::Vmpl;

mod clear;

// The bytes that a page has at least (4.2).
pub const PAGE_BYTES: usize = 256;

// The byte of the page with the announcing bits: bit L - 1 for VMPL L (4.5).
pub const ANNOUNCEMENTS: usize = 3;

// The bytes of a VMPL: those of VMPL L begin at byte 64 L, with the descriptor (4.7, 10.4).
pub const VMPL_BYTES: usize = 64;

// What a notice keeps of byte 1: all but bits 8 to 10 and 14 of the descriptor (4.31).
pub const KEPT_FLAGS: u8 = 0xB8;

// What a notice of many keeps of byte 3: all but bit 31, the mark of the lowest vector (4.32).
pub const KEPT_MARKS: u8 = 0x7F;

// The byte of a page at which the descriptor of the VMPL begins (4.7).
pub fn descriptor_at(vmpl: Vmpl) -> usize
    ensures { result ≡ descriptor_at vmpl.level }
{
    VMPL_BYTES * vmpl.level as usize
}

// The announcing bit of the VMPL in its byte (4.5).
#[tactic(auto, using(crate::proofs::Notice::mark_is))]
fn announcing_bit(vmpl: Vmpl) -> u8
    ensures { result ≡ 2 ^ (vmpl.level - 1) }
{
    1 << (vmpl.level - 1)
}

// Clears what was announced and asked for (4.31 to 4.33).
// Kept: the page's length as a clause, here and below: a page of just 256 bytes would ask more, and a struct round the page would be made at each call.
fn clear_page(page: &mut [u8], vmpl: Vmpl)
    requires { (256 ≤ length page.old) × (announces vmpl.level page.old ≡ true) }
    ensures { page.new ≡ noticed_page vmpl.level page.old }
{
    let first = descriptor_at(vmpl);
    let end = first + DESCRIPTOR_BYTES;
    clear::clear_descriptor(&mut page[first..end]);
    page[ANNOUNCEMENTS] &= !announcing_bit(vmpl);
}

// Takes what the page of a notice asks for beside its marks, if it announces work (4.14 to 4.24), and clears it (4.31). A page with bit 14 is left as
// it is: its marks are taken next.
pub fn take_request(page: &mut [u8], vmpl: Vmpl, allowed: [u32; 8]) -> Option<Requested>
    requires { 256 ≤ length page.old }
    ensures { (result ≡ taken_from vmpl.level allowed page.old) × (page.new ≡ taken_page vmpl.level page.old) }
{
    if page[ANNOUNCEMENTS] & announcing_bit(vmpl) == 0 {
        return None;
    }
    let first = descriptor_at(vmpl);
    let end = first + DESCRIPTOR_BYTES;
    let d = &page[first..end];
    let requested = descriptor::read_request(d.as_array().unwrap(), allowed);
    if !requested.many {
        clear_page(page, vmpl);
    }
    Some(requested)
}

// Takes the marked vectors of a page with bit 14, whose request was taken (4.18), and clears it all (4.31, 4.32).
pub fn take_marks(page: &mut [u8], vmpl: Vmpl, allowed: [u32; 8], requested: Requested) -> [u32; 8]
    requires { (256 ≤ length page.old) × (announces vmpl.level page.old ≡ true)
        × (bit_of (descriptor vmpl.level page.old) many_bit ≡ true)
        × (requested ≡ requested_in allowed (descriptor vmpl.level page.old)) }
    ensures { (result ≡ collect (admits_edge allowed (descriptor vmpl.level page.old)))
        × (page.new ≡ noticed_page vmpl.level page.old) }
{
    let first = descriptor_at(vmpl);
    let end = first + DESCRIPTOR_BYTES;
    let d = &page[first..end];
    let edge = descriptor::read_marks(d.as_array().unwrap(), allowed, requested);
    clear_page(page, vmpl);
    edge
}
