// The kind of each register, from a constant table.
ghost use Rattle.std.specs.Prelude.{◌≡◌};
ghost use Rattle.model.specs.Registers.{kind_of};
ghost use Rattle.requests.specs.Listed.{listed};

use model::Kind;

// The kinds by one letter, for the table.
const N: Kind = Kind::None;

const R: Kind = Kind::Read;

const W: Kind = Kind::Write;

const B: Kind = Kind::Both;

// The numbers that the table covers (6.1).
const FIRST: u32 = 0x800;

const LAST: u32 = 0x8FF;

// Kept: a constant table of the 256 kinds, a form that is prescribed (6.1, 6.30; docs/DECISIONS.md, Forms).
// One kind for each register from the first to the last (6.1, 6.3 to 6.13).
const KINDS: [Kind; 256] = [
    N, // 0x800
    N, R, // 0x802 ID
    N, N, N, N, N, B, // 0x808 TPR
    N, R, // 0x80A PPR
    W, // 0x80B EOI
    N, R, // 0x80D LDR
    N, // 0x80E DFR, which x2APIC has not
    N, R, // 0x810 ISR, to 0x817
    R, R, R, R, R, R, R, R, // 0x818 TMR, to 0x81F
    R, R, R, R, R, R, R, R, // 0x820 IRR, to 0x827
    R, R, R, R, R, R, R, N, N, N, N, N, N, N, N, B, // 0x830 ICR
    N, N, N, N, N, N, N, N, N, N, N, N, N, N, W, // 0x83F self-IPI
    N, // 0x840
    N, N, N, N, N, N, N, N, N, N, N, N, N, N, N, N, // 0x850
    N, N, N, N, N, N, N, N, N, N, N, N, N, N, N, N, // 0x860
    N, N, N, N, N, N, N, N, N, N, N, N, N, N, N, N, // 0x870
    N, N, N, N, N, N, N, N, N, N, N, N, N, N, N, N, // 0x880
    N, N, N, N, N, N, N, N, N, N, N, N, N, N, N, N, // 0x890
    N, N, N, N, N, N, N, N, N, N, N, N, N, N, N, N, // 0x8A0
    N, N, N, N, N, N, N, N, N, N, N, N, N, N, N, N, // 0x8B0
    N, N, N, N, N, N, N, N, N, N, N, N, N, N, N, N, // 0x8C0
    N, N, N, N, N, N, N, N, N, N, N, N, N, N, N, N, // 0x8D0
    N, N, N, N, N, N, N, N, N, N, N, N, N, N, N, N, // 0x8E0
    N, N, N, N, N, N, N, N, N, N, N, N, N, N, N, N, // 0x8F0
    N, N, N, N, N, N, N, N, N, N, N, N, N, N, N,
];

// The whole table. It is read through `&KINDS`: a function that names `KINDS` itself has a temporary for each entry in its
// generated proof, whose check then takes minutes. The copy costs nothing beside a constant array that is read directly: an
// optimised program lays either out on the stack.
fn table() -> [Kind; 256]
    ensures { result ≡ listed kind_of 0x800 256 }
{
    let kinds = &KINDS;
    *kinds
}

// The kind of a register by its number; none outside the table (6.2).
pub fn kind_of(r: u32) -> Kind
    ensures { result ≡ kind_of r }
{
    if r < FIRST || LAST < r {
        return Kind::None;
    }
    let at = (r - FIRST) as usize;
    let kinds = table();
    kinds[at]
}
