// What bars an operation, and what traps it to EL2.
ghost use Rattle.std.specs.Prelude.{◌≡◌};
ghost use Rattle.machine.specs.Access.{is_absent, is_barred, flag_of, trap_flag, traps_fine, is_trapped, trapped};

use machine::{Flags, Name, Operation, Refusal, Share, State, Traps};
use processor::{el2_enabled, hcrx_live};
use words::is_odd_pair;

// State and operation stay two parameters, as the book's definitions take them.
// Absent features, EL0 and odd Rt.
#[tactic(auto, unfolding(machine::specs::Access::is_barred))]
pub fn is_barred(state: State, op: Operation) -> bool
    ensures { result ≡ is_barred state op }
{
    is_absent(state, op) || state.el == 0 || is_odd_pair(op)
}

fn is_absent(state: State, op: Operation) -> bool
    ensures { result ≡ is_absent state op }
{
    let features = state.features;
    let absent = if op.tlbip {
        !features.d128
    } else {
        !features.tlbirange || (op.share == Share::Outer && !features.tlbios)
    };
    absent || (op.nxs && !features.xs)
}

// Whether an E1 name is trapped at EL1.
#[tactic(auto, unfolding(machine::specs::Access::is_trapped))]
pub fn is_trapped(state: State, op: Operation) -> bool
    ensures { result ≡ is_trapped state op }
{
    el2_enabled(state)
        && (state.hcr.ttlb
            || (state.hcr.ttlbis && op.share == Share::Inner)
            || (state.hcr.ttlbos && op.share == Share::Outer)
            || traps_fine(state, op))
}

fn traps_fine(state: State, op: Operation) -> bool
    ensures { result ≡ traps_fine state op }
{
    state.features.fgt
        && (!state.present.el3 || state.scr.fgten)
        && trap_flag(state.traps, op.name, op.share)
        && (!op.nxs || (state.features.hcx && (!hcrx_live(state) || !state.hcrx.fgtnxs)))
}

fn trap_flag(traps: Traps, name: Name, share: Share) -> bool
    ensures { result ≡ trap_flag traps name share }
{
    match name {
        Name::RVAE1 => flag_of(traps.rvae1, share),
        Name::RVAAE1 => flag_of(traps.rvaae1, share),
        Name::RVALE1 => flag_of(traps.rvale1, share),
        Name::RVAALE1 => flag_of(traps.rvaale1, share),
        _ => false,
    }
}

// Three fields by name, as C's record has them: an arm each is as plain as a place in an array.
fn flag_of(flags: Flags, share: Share) -> bool
    ensures { result ≡ flag_of flags share }
{
    match share {
        Share::Local => flags.local,
        Share::Inner => flags.inner,
        Share::Outer => flags.outer,
    }
}

// The number that goes with a trap.
pub fn trap(op: Operation) -> Refusal
    ensures { trapped op ≡ Err result }
{
    if op.tlbip {
        Refusal::Trapped(0x14)
    } else {
        Refusal::Trapped(0x18)
    }
}
