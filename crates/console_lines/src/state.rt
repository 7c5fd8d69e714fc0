// The lines of a module's state.
ghost use Rattle.console.specs.Filling.{Adds};
ghost use Rattle.console_lines.specs.Lines.{member_text, members_text, set_text, phase_text, flight_text, sets_text, vcpu_line, module_line, state_line};

use crate::output::put_hex;
use console::Output;
use model::{InFlight, Module, Phase, Vcpu};

fn put_member(out: &mut Output, v: u8, later: bool)
    ensures { Adds (member_text later v) out.old out.new }
{
    let before: &[u8] = if later { b"," } else { b"" };
    put_hex(out, before, u64::from(v));
}

// The members of s, lowest first.
fn put_members(out: &mut Output, s: [u32; 8])
    ensures { Adds (members_text s) out.old out.new }
{
    let mut later = false;
    for v in 0..=255 {
        if vector_set::contains(s, v) {
            put_member(out, v, later);
            later = true;
        }
    }
}

fn put_set(out: &mut Output, name: &[u8], s: [u32; 8])
    ensures { Adds (set_text name.now s) out.old out.new }
{
    out.put(name);
    out.put(b"{");
    put_members(out, s);
    out.put(b"}");
}

fn put_phase(out: &mut Output, p: Phase)
    ensures { Adds (phase_text p) out.old out.new }
{
    match p {
        Phase::Active => out.put(b" phase=active"),
        Phase::Leaving => out.put(b" phase=leaving"),
        Phase::Left => out.put(b" phase=left"),
    }
}

fn put_flight(out: &mut Output, f: InFlight)
    ensures { Adds (flight_text f) out.old out.new }
{
    match f {
        InFlight::Nothing => out.put(b" flight=nothing"),
        InFlight::Nmi => out.put(b" flight=nmi"),
        InFlight::MachineCheck => out.put(b" flight=mc"),
        InFlight::Vector(v) => put_hex(out, b" flight=", u64::from(v)),
    }
}

fn put_sets(out: &mut Output, v: Vcpu)
    ensures { Adds (sets_text v) out.old out.new }
{
    put_set(out, b" allowed=", v.allowed);
    put_set(out, b" pending=", v.irr);
    put_set(out, b" service=", v.isr);
    put_set(out, b" pending_level=", v.irr_level);
    put_set(out, b" serving_level=", v.isr_level);
}

fn put_vcpu(out: &mut Output, i: u32, v: Vcpu)
    ensures { Adds (vcpu_line i v) out.old out.new }
{
    put_hex(out, b"vcpu ", u64::from(i));
    put_phase(out, v.phase);
    put_flight(out, v.flight);
    put_hex(out, b" nmi=", u64::from(v.nmi));
    put_hex(out, b" tpr=", u64::from(v.tpr));
    put_hex(out, b" icr=", v.icr);
    put_sets(out, v);
    put_hex(out, b" mc=", u64::from(v.machine_check));
    put_hex(out, b" summary=", u64::from(v.summary));
    out.put(b"\n");
}

fn put_module(out: &mut Output, m: Module)
    ensures { Adds (module_line m) out.old out.new }
{
    put_hex(out, b"module n=", u64::from(m.n));
    put_hex(out, b" vmpl=", u64::from(m.vmpl));
    put_hex(out, b" count=", u64::from(m.registrations));
    out.put(b"\n");
}

// Puts line k of a module's state: line 0 is the module's own, line i + 1 that of vCPU i. There is none for a vCPU that the module does not have.
pub fn put_state(out: &mut Output, m: Module, k: u32)
    ensures { Adds (state_line m k) out.old out.new }
{
    if k == 0 {
        put_module(out, m);
        return;
    }
    let i = k - 1;
    if i < 32 && i < m.n {
        put_vcpu(out, i, m.vcpus[i as usize]);
    }
}
