// What an operation that runs asks for by its register's words.
ghost use Rattle.std.specs.Prelude.{◌≡◌};
ghost use Rattle.machine.specs.Asked.{xt_used, xt2_used, is_two_ranges, form_of, told_of, asked_of};

use crate::range::ranged;
use machine::{Form, Operand, Operation, Range, Refusal, Regime, Scope, State, Told};
use processor::{is_secure, is_unit_64k};

pub fn is_two_ranges(regime: Regime) -> bool
    ensures { result ≡ is_two_ranges regime }
{
    matches!(regime, Regime::EL10 | Regime::EL20)
}

#[tactic(auto, unfolding(machine::specs::Asked::form_of))]
fn form_of(scope: Scope) -> Form
    ensures { result ≡ form_of scope }
{
    if scope.stage2 {
        if is_secure(scope.security) {
            Form::Stage2Ns
        } else {
            Form::Stage2NoNs
        }
    } else if !is_two_ranges(scope.regime) {
        Form::OneRange
    } else if scope.asid {
        Form::TwoRangesAsid
    } else {
        Form::TwoRanges
    }
}

#[tactic(auto, unfolding(machine::specs::Asked::told_of))]
fn told_of(state: State, op: Operation, scope: Scope) -> Told
    ensures { result ≡ told_of state op scope }
{
    Told {
        tlbip: op.tlbip,
        form: form_of(scope),
        lpa2: state.features.lpa2,
        unit64k: is_unit_64k(state, scope.regime, scope.stage2),
    }
}

fn xt_used(op: Operation, xt: u64) -> u64
    ensures { result ≡ xt_used op xt }
{
    if op.rt == 31 { 0 } else { xt }
}

fn xt2_used(op: Operation, xt2: u64) -> u64
    ensures { result ≡ xt2_used op xt2 }
{
    if 30 <= op.rt { 0 } else { xt2 }
}

// State, operation, scope and words stay parameters, as the book's `asked_of` takes them.
#[tactic(auto, unfolding(machine::specs::Asked::asked_of))]
pub fn asked(
    state: State,
    op: Operation,
    scope: Scope,
    xt: u64,
    xt2: u64,
) -> Result<(Operand, Range), Refusal>
    ensures { result ≡ asked_of state op scope xt xt2 }
{
    ranged(
        told_of(state, op, scope),
        xt_used(op, xt),
        xt2_used(op, xt2),
    )
}
