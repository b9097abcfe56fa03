// The work of a step, which the makers aim entries and targets at; any legal work where the step has none.
ghost use Rattle.std.specs.Prelude.{◌≡◌, ◌%◌, IfSome, IsNone};

use crate::going::has_ids;
use crate::legal::{legal_address, legal_company};
use crate::seeds::{below, draw, flip, number16};
use crate::steps::Step;
use machine::{State, Work};
use words::OperationWord;

// A work, and the ASID of a target that is aimed at it and asks for one: the work's own. A work that has none comes with
// 0, or with any that its company may have where it is any work.
#[derive(Clone, Copy)]
pub struct Aim {
    pub work: Work,
    pub asid: u16,
}

pub fn aim_of(state: State, step: Step, seed: u64) -> Aim
    ensures { IfSome result.work.asid (λ asid. result.asid ≡ asid % 65536) }
{
    let read = OperationWord { bits: step.word }.read();
    match works::resolve(&state, read, None, step.xt, step.xt2) {
        Ok(work) => Aim {
            work,
            asid: (work.asid.unwrap_or(0) % 65536) as u16,
        },
        Err(_) => any_aim(seed),
    }
}

pub fn work_of(state: State, step: Step, seed: u64) -> Work {
    aim_of(state, step, seed).work
}

pub fn any_work(seed: u64) -> Work {
    any_aim(seed).work
}

fn any_aim(seed: u64) -> Aim
    ensures { IsNone result.work.asid }
{
    let company = legal_company(draw(seed, 0));
    let first = legal_address(company, draw(seed, 1));
    Aim {
        work: Work {
            company,
            reached: 1,
            granule: 1 + below(seed, 2, 3),
            first,
            last: first,
            level: None,
            wide: flip(seed, 3),
            d128: true,
            leaves: flip(seed, 4),
            asid: None,
            nxs: false,
        },
        asid: if has_ids(company) {
            number16(seed, 5)
        } else {
            0
        },
    }
}
