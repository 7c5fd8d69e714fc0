// The state of the gate and what its events answer. What each event does is said in specs/; the crates above carry it out.
#![tactic(auto)]

ghost use Rattle.std.specs.Prelude.{◌≤◌};

// The vectors that stand for the NMI and the machine check in an allowed set and in call 4 (2.4, 4.16, 4.40, 5.17).
pub const NMI_VECTOR: u8 = 2;

pub const MACHINE_CHECK_VECTOR: u8 = 18;

// The phase of a vCPU.
#[derive(Clone, Copy, PartialEq, Eq)]
pub enum Phase {
    Active,
    Leaving,
    Left,
}

// What is in flight on a vCPU: presented by its latest entry and neither confirmed by a later call, entry or accepted value of a list nor returned.
// Kept: an enum with the vector as data, and no Option<Item>: a form that is prescribed (docs/DECISIONS.md, Forms).
#[derive(Clone, Copy)]
pub enum InFlight {
    Nothing,
    Nmi,
    MachineCheck,
    Vector(u8),
}

// What is pending, sent or presented: the NMI, the machine check or a vector.
#[derive(Clone, Copy)]
pub enum Item {
    Nmi,
    MachineCheck,
    Vector(u8),
}

// The record of one vCPU. docs/SPECIFICATION.md names the sets A, P, S, PL and SL, in this order.
#[derive(Clone, Copy)]
pub struct Vcpu {
    pub allowed: [u32; 8],
    pub irr: [u32; 8],
    pub isr: [u32; 8],
    pub irr_level: [u32; 8],
    pub isr_level: [u32; 8],
    pub nmi: bool,
    pub machine_check: bool,
    pub tpr: u8,
    pub icr: u64,
    pub phase: Phase,
    pub flight: InFlight,
    // Bit k says that word k of P, vectors 32k to 32k + 31, is not 0.
    pub summary: u8,
}

// A guest VMPL: 1, 2 or 3 (1.2). A module that never started may hold any number.
#[derive(Clone, Copy)]
pub struct Vmpl {
    pub level: u32,
    pub ghost of_a_guest: { (1 ≤ level) × (level ≤ 3) },
}

// Kept: n beside an array of 32: memory is fixed, and records at n and above are part of the value (2.13).
// The module for one guest VMPL. No event reads or writes the records at n and above.
#[derive(Clone, Copy)]
pub struct Module {
    pub n: u32,
    pub vmpl: u32,
    pub registrations: u8,
    pub vcpus: [Vcpu; 32],
}

// How a register may be used.
// Kept: no use at all is one of the four kinds that the constant table holds, a form that is prescribed (docs/DECISIONS.md, Forms).
#[derive(Clone, Copy)]
pub enum Kind {
    None,
    Read,
    Write,
    Both,
}

// Whom an IPI is for.
#[derive(Clone, Copy)]
pub enum Target {
    Caller,
    All,
    Others,
    Physical(u32),
    Logical(u32),
}

// Why an event is refused. Its code is `code_of` of specs/Codes.antt.
#[derive(Clone, Copy)]
pub enum Refusal {
    UnknownVcpu,
    ShortPage,
    StillActive,
    NothingInFlight,
    BadStart,
    NotActive,
    UnknownCall,
    BadRegister,
    BadParameter,
    RegistrationsFull,
    NotRegistered,
    BadList,
    HasLeft,
}

// A guest call that touches the caller's record and the registration count alone.
#[derive(Clone, Copy)]
pub enum Local {
    Features,
    Leave,
    Release,
    Register,
    Allow(u8),
    Disallow(u8),
    Read(u32),
    SetTpr(u8),
    Eoi,
    SelfIpi(u8),
}

// What the numbers of a guest call ask for, where they are not refused.
#[derive(Clone, Copy)]
pub enum Request {
    Local(Local),
    Icr(u64),
}

// What a notice counts: how many of its items are new, and how many were merged with what was pending.
#[derive(Clone, Copy)]
pub struct Counts {
    pub new: u32,
    pub merged: u32,
}

// What an entry presents.
// Kept: nothing is one of its five answers (8.4), and an Option beside the others would be asked for at every use.
#[derive(Clone, Copy)]
pub enum Presentation {
    Nothing,
    Nmi,
    MachineCheck,
    Vector(u8),
    Window(u8),
}

// The answer of an event, or why it is refused, with the module after it. The answer is the counts of a notice, the presentation of an entry, and the
// number of start, a guest call, a non-delivery, a hand-back or a list of ECX values.
#[derive(Clone, Copy)]
pub struct Stepped<T> {
    pub answer: Result<T, Refusal>,
    pub after: Module,
}
