// The descriptor: what its 32 bytes ask for and admit. Its marks are read apart, since most descriptors have none.
#![tactic(auto)]

ghost use Rattle.std.specs.Prelude.{◌≡◌, true, not, ◌&&◌, ◌+◌, ◌*◌, ◌≤◌, ◌<◌, eqb, length};
ghost use Rattle.std.specs.Int.Bits.{bit_and};
ghost use Rattle.vector_set.specs.Bits.{bits};
ghost use Rattle.vector_set.specs.Sets.{has, collect};
ghost use Rattle.model.specs.Doorbell.{bit_of, many_bit, is_vector, admits_edge};
ghost use Rattle.descriptor.specs.Requests.{Asked, single_bit, requested_in};

use ipi::Posting;
use model::{MACHINE_CHECK_VECTOR, NMI_VECTOR};
use std::array;
use std::marker::Model;
use vector_set::LOWEST;

// The bytes of a descriptor, and of a set.
pub const DESCRIPTOR_BYTES: usize = 32;

// Bits 8, 9, 10 and 14 of a descriptor, as bits of its byte 1 (4.8, 4.10 to 4.13).
pub const NMI: u8 = 0x01;

pub const MACHINE_CHECK: u8 = 0x02;

pub const LEVEL: u8 = 0x04;

pub const MANY: u8 = 0x40;

// What a descriptor asks for beside its marks: the NMI, the machine check and the vector in bits 7:0, as far as they are admitted; the vector's bit
// again where it is level-sensitive; bit 14, with which the marks count. Contracts see it as `Asked` of specs/Requests.antt.
// Kept: bit 14 as a bool, since what stands beside it counts with it and without.
#[derive(Drop)]
pub struct Requested {
    pub posting: Posting,
    pub level: u32,
    pub many: bool,
}

impl Model for Requested {
    ghost Value = { Asked };

    ghost view = { λ r. record { posting = r.posting; level = r.level; many = r.many } };

    // The word is one of the eight of a set.
    ghost invariant = { λ r. r.posting.word < 8 };
}

// The 32 bits from byte `at` on.
fn word_of(d: &[u8], at: usize) -> u32
    requires { at + 4 ≤ length d.now }
    ensures { result ≡ bits (bit_of d.now) (8 * at) 32 }
{
    u32::from_le_bytes([d[at], d[at + 1], d[at + 2], d[at + 3]])
}

// The bits of the descriptor as a set of vectors (4.8, 4.13).
fn marks(d: &[u8; DESCRIPTOR_BYTES]) -> [u32; 8]
    ensures { result ≡ collect (bit_of d.now) }
{
    array::from_fn(|k| word_of(d, 4 * k))
}

// An item with a bit of byte 1 is admitted: the vector stands for it in the allowed set (4.16, 4.40).
fn is_admitted(flags: u8, bit: u8, allowed: [u32; 8], vector: u8) -> bool
    ensures { result ≡ (not (eqb (bit_and flags bit) 0) && has allowed vector) }
{
    flags & bit != 0 && vector_set::contains(allowed, vector)
}

// A vector that a notice may name, in the allowed set (4.13, 4.22, 4.23).
fn may_name(allowed: [u32; 8], v: u8) -> bool
    ensures { result ≡ (is_vector v && has allowed v) }
{
    LOWEST <= v && vector_set::contains(allowed, v)
}

// The bit of the vector in bits 7:0 in its word, where it may be named (4.13, 4.22, 4.23).
#[tactic(auto, unfolding(crate::specs::Requests::single_bit))]
fn single_of(allowed: [u32; 8], vector: u8) -> u32
    ensures { result ≡ single_bit allowed vector }
{
    if may_name(allowed, vector) {
        vector_set::bit_of(vector)
    } else {
        0
    }
}

// What the descriptor asks for beside its marks (4.16, 4.17, 4.19, 4.21 to 4.24, 4.40, 4.41).
pub fn read_request(d: &[u8; DESCRIPTOR_BYTES], allowed: [u32; 8]) -> Requested
    ensures { result ≡ requested_in allowed d.now }
{
    let vector = d[0];
    let flags = d[1];
    let nmi = is_admitted(flags, NMI, allowed, NMI_VECTOR);
    let machine_check = is_admitted(flags, MACHINE_CHECK, allowed, MACHINE_CHECK_VECTOR);
    let single = single_of(allowed, vector);
    let level = if flags & LEVEL != 0 { single } else { 0 };
    let word = vector_set::word_of(vector);
    if flags & MANY != 0 {
        return Requested {
            posting: Posting {
                nmi,
                machine_check,
                word,
                bits: level,
            },
            level,
            many: true,
        };
    }
    Requested {
        posting: Posting {
            nmi,
            machine_check,
            word,
            bits: single,
        },
        level,
        many: false,
    }
}

// The set of edge vectors where bit 14 is set: the marked vectors 31 to 255 other than the level-sensitive one, which the request has (4.18, 4.24).
pub fn read_marks(d: &[u8; DESCRIPTOR_BYTES], allowed: [u32; 8], requested: Requested) -> [u32; 8]
    requires { (bit_of d.now many_bit ≡ true) × (requested ≡ requested_in allowed d.now) }
    ensures { result ≡ collect (admits_edge allowed d.now) }
{
    let k = requested.posting.word;
    let mut edge = vector_set_algebra::from_lowest(vector_set_algebra::intersection(
        marks(d),
        allowed,
    ));
    edge[k] &= !requested.level;
    edge
}
