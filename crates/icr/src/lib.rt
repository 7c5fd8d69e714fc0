// The ICR: which values may be written, what they send and to whom.
#![tactic(auto)]

ghost use Rattle.std.specs.Prelude.{◌≡◌};
ghost use Rattle.model.specs.Ipi.{icr_reserved_clear, icr_is_fixed, icr_is_nmi, icr_legal, icr_item, icr_target};
ghost use Rattle.icr.specs.Fields.{delivery, shorthand};

use model::{Item, Target};

// The lowest bits of the type, of the shorthand and of the destination, and the bit of logical mode (7.3, 7.4, 7.6, 7.7).
const TYPE_BIT: u64 = 8;

const LOGICAL_BIT: u64 = 11;

const SHORTHAND_BIT: u64 = 18;

const DESTINATION_BIT: u64 = 32;

// The destination that is every vCPU (7.15).
const BROADCAST: u64 = 0xFFFF_FFFF;

// The types that may be written (7.3).
#[derive(Clone, Copy)]
enum Delivery {
    Fixed,
    Nmi,
}

// Whom a value is for, where it is not its destination that says it (7.6).
#[derive(Clone, Copy)]
enum Shorthand {
    Caller,
    All,
    Others,
}

#[tactic(auto, unfolding(crate::specs::Fields::delivery))]
fn delivery_of(value: u64) -> Option<Delivery>
    ensures { result ≡ delivery value }
{
    match (value >> TYPE_BIT) % 8 {
        0 => Some(Delivery::Fixed),
        4 => Some(Delivery::Nmi),
        _ => None,
    }
}

#[tactic(auto, unfolding(crate::specs::Fields::shorthand))]
fn shorthand_of(value: u64) -> Option<Shorthand>
    ensures { result ≡ shorthand value }
{
    match (value >> SHORTHAND_BIT) % 4 {
        1 => Some(Shorthand::Caller),
        2 => Some(Shorthand::All),
        3 => Some(Shorthand::Others),
        _ => None,
    }
}

// Bits 12 and 13, 16 and 17, 20 to 31 are 0 (7.8). Bits 14 and 15, assert and trigger mode, may be either (7.5).
#[tactic(auto, unfolding(model::specs::Ipi::icr_reserved_clear))]
fn reserved_clear(value: u64) -> bool
    ensures { result ≡ icr_reserved_clear value }
{
    (value >> 12) % 4 == 0 && (value >> 16) % 4 == 0 && (value >> 20) % 4096 == 0
}

// Type Fixed, with a vector that may be sent (7.3, 7.9).
#[tactic(auto, unfolding(model::specs::Ipi::icr_is_fixed, crate::specs::Fields::delivery))]
fn is_fixed(value: u64) -> bool
    ensures { result ≡ icr_is_fixed value }
{
    matches!(delivery_of(value), Some(Delivery::Fixed)) && vector_set::is_vector(value % 256)
}

// Type NMI, with neither shorthand that would send it to the caller (7.3, 7.10).
#[tactic(auto, unfolding(model::specs::Ipi::icr_is_nmi, crate::specs::Fields::delivery, crate::specs::Fields::shorthand))]
fn is_nmi(value: u64) -> bool
    ensures { result ≡ icr_is_nmi value }
{
    matches!(delivery_of(value), Some(Delivery::Nmi))
        && matches!(shorthand_of(value), None | Some(Shorthand::Others))
}

// The ICR takes the value (7.11).
#[tactic(auto, unfolding(model::specs::Ipi::icr_legal))]
pub fn is_legal(value: u64) -> bool
    ensures { result ≡ icr_legal value }
{
    reserved_clear(value) && (is_fixed(value) || is_nmi(value))
}

// What a legal value sends (7.2, 7.3).
#[tactic(auto, unfolding(model::specs::Ipi::icr_item, crate::specs::Fields::delivery))]
pub fn item_of(value: u64) -> Item
    ensures { result ≡ icr_item value }
{
    if let Some(Delivery::Nmi) = delivery_of(value) {
        return Item::Nmi;
    }
    Item::Vector((value % 256) as u8)
}

// A shorthand comes before the destination (7.4, 7.6, 7.7, 7.12, 7.15).
#[tactic(auto, unfolding(model::specs::Ipi::icr_target, crate::specs::Fields::shorthand))]
pub fn target_of(value: u64) -> Target
    ensures { result ≡ icr_target value }
{
    match shorthand_of(value) {
        Some(Shorthand::Caller) => Target::Caller,
        Some(Shorthand::All) => Target::All,
        Some(Shorthand::Others) => Target::Others,
        None => {
            let destination = value >> DESTINATION_BIT;
            if destination == BROADCAST {
                return Target::All;
            }
            if (value >> LOGICAL_BIT) % 2 == 1 {
                return Target::Logical(destination as u32);
            }
            Target::Physical(destination as u32)
        }
    }
}
