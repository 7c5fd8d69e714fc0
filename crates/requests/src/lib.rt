// What the numbers of a guest call ask for.
#![tactic(auto)]

ghost use Rattle.std.specs.Prelude.{◌≡◌};
ghost use Rattle.model.specs.Registers.{kind_of};
ghost use Rattle.model.specs.Requests.{registration, read_by, write_by, write_value, nameable, permission, request_of};

use apic::registers;
use model::{Kind, Local, MACHINE_CHECK_VECTOR, NMI_VECTOR, Refusal, Request};
use vector_set::LOWEST;

pub mod kinds;

// The bit of ECX by which call 4 allows the vector, and does not take it out (5.16).
pub const ALLOW_BIT: u32 = 8;

// Kept: calls, forms of ECX and registers as numbers that a match tells apart, a form that is prescribed (5.24; docs/DECISIONS.md, Forms).
// The forms of call 4's ECX: the vectors that it may name, and the same with ALLOW_BIT set (5.15 to 5.17).
const DISALLOW_NMI: u32 = NMI_VECTOR as u32;

const DISALLOW_MACHINE_CHECK: u32 = MACHINE_CHECK_VECTOR as u32;

const DISALLOW_LOWEST: u32 = LOWEST as u32;

const DISALLOW_HIGHEST: u32 = 255;

const ALLOW: u32 = 1 << ALLOW_BIT;

const ALLOW_NMI: u32 = ALLOW + DISALLOW_NMI;

const ALLOW_MACHINE_CHECK: u32 = ALLOW + DISALLOW_MACHINE_CHECK;

const ALLOW_LOWEST: u32 = ALLOW + DISALLOW_LOWEST;

const ALLOW_HIGHEST: u32 = ALLOW + DISALLOW_HIGHEST;

// Call 1 (5.7).
#[tactic(auto, unfolding(model::specs::Requests::registration))]
fn registration_of(ecx: u32) -> Result<Request, Refusal>
    ensures { result ≡ registration ecx }
{
    match ecx {
        0 => Ok(Request::Local(Local::Leave)),
        1 => Ok(Request::Local(Local::Release)),
        2 => Ok(Request::Local(Local::Register)),
        _ => Err(Refusal::BadParameter),
    }
}

// Call 2 (5.21, 6.15).
fn read_of(r: u32) -> Result<Request, Refusal>
    ensures { result ≡ read_by (kind_of r) r }
{
    match kinds::kind_of(r) {
        Kind::Read | Kind::Both => Ok(Request::Local(Local::Read(r))),
        Kind::None | Kind::Write => Err(Refusal::BadRegister),
    }
}

// A value written to a register that may be written (6.21 to 6.24).
#[tactic(auto, unfolding(model::specs::Requests::write_value))]
fn value_of(r: u32, x: u64) -> Result<Request, Refusal>
    ensures { result ≡ write_value r x }
{
    match r {
        registers::EOI if x == 0 => Ok(Request::Local(Local::Eoi)),
        registers::SELF_IPI if vector_set::is_vector(x) => {
            Ok(Request::Local(Local::SelfIpi(x as u8)))
        }
        registers::TPR if x <= 255 => Ok(Request::Local(Local::SetTpr(x as u8))),
        registers::ICR if icr::is_legal(x) => Ok(Request::Icr(x)),
        registers::EOI | registers::SELF_IPI | registers::TPR | registers::ICR => {
            Err(Refusal::BadParameter)
        }
        _ => Err(Refusal::BadRegister),
    }
}

// Call 3 (5.21, 6.15).
fn write_of(r: u32, x: u64) -> Result<Request, Refusal>
    ensures { result ≡ write_by (kind_of r) r x }
{
    match kinds::kind_of(r) {
        Kind::None => Err(Refusal::BadRegister),
        Kind::Read => Err(Refusal::BadParameter),
        Kind::Write | Kind::Both => value_of(r, x),
    }
}

// Call 4 (5.15 to 5.18).
#[tactic(auto, unfolding(model::specs::Requests::permission, model::specs::Requests::nameable))]
fn permission_of(ecx: u32) -> Result<Request, Refusal>
    ensures { result ≡ permission ecx }
{
    match ecx {
        DISALLOW_NMI | DISALLOW_MACHINE_CHECK | DISALLOW_LOWEST..=DISALLOW_HIGHEST => {
            Ok(Request::Local(Local::Disallow((ecx % 256) as u8)))
        }
        ALLOW_NMI | ALLOW_MACHINE_CHECK | ALLOW_LOWEST..=ALLOW_HIGHEST => {
            Ok(Request::Local(Local::Allow((ecx % 256) as u8)))
        }
        _ => Err(Refusal::BadParameter),
    }
}

// Call 4 takes this ECX: it names a vector that may be named, and has no bit above 8 (5.17).
#[tactic(auto, unfolding(model::specs::Requests::permission))]
pub fn is_nameable(ecx: u32) -> bool
    ensures { result ≡ nameable ecx }
{
    permission_of(ecx).is_ok()
}

// What a call asks for, or why it is refused before the count is looked at (5.1, 5.2, 11.14).
#[tactic(auto, unfolding(model::specs::Requests::request_of))]
pub fn request_of(number: u32, ecx: u32, rdx: u64) -> Result<Request, Refusal>
    ensures { result ≡ request_of number ecx rdx }
{
    match number {
        0 => Ok(Request::Local(Local::Features)),
        1 => registration_of(ecx),
        2 => read_of(ecx),
        3 => write_of(ecx, rdx),
        4 => permission_of(ecx),
        _ => Err(Refusal::UnknownCall),
    }
}
