// The operand reader and writer.
use crate::tally::{Seen, Tally};
use inputs::{
    Parts, Step, below, draw, field_for, flip, form_at, number_for, number16, once_in, power,
    step_of,
};
use machine::{Operand, Told};

fn told_at(seed: u64) -> Told {
    Told {
        tlbip: flip(seed, 0),
        form: form_at(below(seed, 1, 5)),
        lpa2: flip(seed, 2),
        unit64k: flip(seed, 3),
    }
}

fn words_at(told: Told, seed: u64) -> Step {
    let tg = if once_in(seed, 0, 12) {
        0
    } else {
        1 + below(seed, 1, 3)
    };
    let parts = Parts {
        top: u64::from(number16(seed, 2)),
        tg,
        scale: below(seed, 3, 4),
        num: number_for(draw(seed, 4)),
        ttl: below(seed, 5, 4),
        field: field_for(told.tlbip, draw(seed, 6)),
    };
    if once_in(seed, 7, 8) {
        Step {
            word: 0,
            xt: draw(seed, 8),
            xt2: draw(seed, 9),
        }
    } else {
        step_of(0, told.tlbip, parts, draw(seed, 10))
    }
}

pub fn reads() -> Tally {
    Tally::of(25000, |n| {
        let seed = draw(6, n);
        let told = told_at(draw(seed, 0));
        let Step { xt, xt2, .. } = words_at(told, draw(seed, 1));
        Seen::of(
            calls::read_operand(told, xt, xt2),
            second_tables::read(told, xt, xt2),
        )
    })
}

pub fn writes() -> Tally {
    Tally::of(36000, |n| {
        let seed = draw(7, n);
        let told = told_at(draw(seed, 0));
        let fields = fields_of(told, words_at(told, draw(seed, 1)));
        let given = if once_in(seed, 2, 3) {
            fields
        } else {
            changed(fields, draw(seed, 3))
        };
        let other = if once_in(seed, 4, 12) {
            told_at(draw(seed, 5))
        } else {
            told
        };
        Seen::of(
            calls::write_operand(other, given),
            second_tables::write(other, given),
        )
    })
}

// Fields that can be written, since they were read.
fn fields_of(told: Told, step: Step) -> Operand {
    calls::read_operand(told, step.xt, step.xt2).unwrap_or(Operand {
        asid: 0,
        ns: 0,
        tg: 0,
        scale: 0,
        num: 0,
        ttl: 0,
        base: 0,
    })
}

// One field made another, too large, or one that the form lacks.
fn changed(o: Operand, seed: u64) -> Operand {
    let which = below(seed, 0, 24);
    let any = draw(seed, 1);
    Operand {
        asid: match which {
            0 => 65536,
            1 => 1,
            2 => any,
            3 => 65535,
            _ => o.asid,
        },
        ns: match which {
            4 => 1,
            5 => 2,
            6 => any,
            _ => o.ns,
        },
        tg: match which {
            7 => 0,
            8 => 4,
            9 => any,
            10 => 2,
            _ => o.tg,
        },
        scale: match which {
            11 => 4,
            12 => any,
            _ => o.scale,
        },
        num: match which {
            13 => 32,
            14 => any,
            _ => o.num,
        },
        ttl: match which {
            15 => 4,
            16 => any,
            10 | 17 => 1,
            _ => o.ttl,
        },
        base: changed_base(o, which, any),
    }
}

// A unit more or less, a bit of any place turned, or any address.
fn changed_base(o: Operand, which: u64, any: u64) -> u64 {
    let granule = power(10 + o.tg % 4 * 2);
    match which {
        18 => o.base.wrapping_add(granule),
        19 => o.base.wrapping_sub(granule),
        20 => o.base ^ power(any / 8),
        21 => o.base ^ power(47 + any / 8 % 17),
        22 => o.base ^ power(11 + any / 8 % 6),
        23 => any,
        _ => o.base,
    }
}
