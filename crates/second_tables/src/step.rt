// What an instruction word and two register words come to in a good state, before a table is looked at.
use crate::numbers::number_of_regime;
use crate::operand::read;
use crate::range::{is_unpredictable, last_address};
use machine::{Form, Operand, Operation, Refusal, Regime, Scope, Security, State, Told};
use second_rules::{outcome, unit_64k};
use second_words::{Named, decode};

#[derive(Clone, Copy)]
pub struct Step {
    pub scope: Scope,
    pub fields: Operand,
    pub last: u64,
    pub tlbip: bool,
    pub d128: bool,
}

// "1, 3 to 5 by the access rules [..], 6, 7"
pub fn step_of(state: State, word: u64, xt: u64, xt2: u64) -> Result<Step, Refusal> {
    let op = decode(word).ok_or(Refusal::Unknown)?;
    let named = Named::from(op);
    let scope = outcome(state, named.name, named.share, op.nxs, op.tlbip, op.rt)?;
    let regime = number_of_regime(scope.regime);
    let told = Told {
        tlbip: op.tlbip,
        form: form_of(scope),
        lpa2: state.features.lpa2,
        unit64k: unit_64k(state, regime, scope.stage2),
    };
    let fields = read(told, first_register(op, xt), second_register(op, xt2))?;
    let last = last_address(fields).ok_or(Refusal::NoGranule)?;
    if is_unpredictable(op.tlbip, fields) {
        return Err(Refusal::Unpredictable);
    }
    Ok(Step {
        scope,
        fields,
        last,
        tlbip: op.tlbip,
        d128: state.features.d128,
    })
}

// "Rt 31 means a zero operand, whatever was passed; under SYSP with Rt 30, Xt2 counts as zero."
fn first_register(op: Operation, xt: u64) -> u64 {
    if op.rt == 31 { 0 } else { xt }
}

fn second_register(op: Operation, xt2: u64) -> u64 {
    if !op.tlbip || matches!(op.rt, 30 | 31) {
        0
    } else {
        xt2
    }
}

// "two ranges with ASID, two without, one range, stage 2 with NS (Secure), or stage 2 without"
fn form_of(scope: Scope) -> Form {
    if scope.stage2 {
        if scope.security == Security::Secure {
            return Form::Stage2Ns;
        }
        return Form::Stage2NoNs;
    }
    if matches!(scope.regime, Regime::EL2 | Regime::EL3) {
        return Form::OneRange;
    }
    if scope.asid {
        Form::TwoRangesAsid
    } else {
        Form::TwoRanges
    }
}
