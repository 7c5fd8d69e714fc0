// The numbers of the x2APIC's registers (6.3 to 6.12). The ISR, the TMR and the IRR have eight each, from the first to the last.
// Kept: registers as numbers, which register_value tells apart by ranges, a form that is prescribed (5.24; docs/DECISIONS.md, Forms).
pub const ID: u32 = 0x802;

pub const TPR: u32 = 0x808;

pub const PPR: u32 = 0x80A;

pub const EOI: u32 = 0x80B;

pub const LDR: u32 = 0x80D;

pub const ISR: u32 = 0x810;

pub const ISR_LAST: u32 = ISR + 7;

pub const TMR: u32 = 0x818;

pub const TMR_LAST: u32 = TMR + 7;

pub const IRR: u32 = 0x820;

pub const IRR_LAST: u32 = IRR + 7;

pub const ICR: u32 = 0x830;

pub const SELF_IPI: u32 = 0x83F;
