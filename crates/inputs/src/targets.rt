// Targets that a list's steps are aimed at, and the same with one field changed.
use crate::going::{address_in, has_ids, lowest};
use crate::legal::{legal_address, legal_company};
use crate::numbers::{regime_at, security_at};
use crate::seeds::{below, draw, flip, once_in, power, small};
use crate::works_made::Aim;
use machine::{State, Target, Work};

// What the first and the last step cover, or a part of it; mostly on one of the processors that are reached.
pub fn target_for(aim: Aim, two: Work, seed: u64) -> Target {
    let one = aim.work;
    let company = one.company;
    let is_one = one.asid.is_some() || has_ids(company) && flip(seed, 4);
    let least = one.first.min(two.first);
    let most = one.last.max(two.last);
    let first = if once_in(seed, 0, 3) {
        address_in(least, most, draw(seed, 1))
    } else {
        least
    };
    let last = if once_in(seed, 7, 4) {
        address_in(first, most, draw(seed, 8))
    } else {
        most
    };
    Target {
        company,
        wide: one.wide != (one.d128 && once_in(seed, 3, 4)),
        granule: (one.granule % 4) as u8,
        asid: is_one.then_some(aim.asid),
        leaves: one.leaves || flip(seed, 5),
        processors: processors_of(one.reached, draw(seed, 2)),
        first,
        last: last.max(first),
    }
}

// All of the mask, or the lowest or another single one of it.
fn processors_of(reached: u64, seed: u64) -> u64 {
    let single = power(below(seed, 1, 8));
    match below(seed, 0, 16) {
        0 => reached,
        1..=8 if reached & single != 0 => single,
        _ => power(lowest(reached) as u64),
    }
}

pub fn any_target(seed: u64) -> Target {
    let company = legal_company(draw(seed, 0));
    let first = legal_address(company, draw(seed, 1));
    Target {
        company,
        wide: flip(seed, 2),
        granule: 1 + small(seed, 3, 3),
        asid: (has_ids(company) && flip(seed, 4)).then(|| below(seed, 5, 3) as u16),
        leaves: flip(seed, 6),
        processors: 1,
        first,
        last: first,
    }
}

// One of the fields is changed; a target of all ASIDs is made one of the ASID that goes with it.
pub fn missed_target(target: Target, asid: u16, state: State, seed: u64) -> Target {
    let whose = draw(seed, 1);
    let size = draw(seed, 2);
    let mask = draw(seed, 3);
    let address = draw(seed, 4);
    let count = state.board.count as u64;
    let mut next = target;
    match below(seed, 0, 32) {
        0 => next.wide = !target.wide,
        1 if target.asid.is_none() => next.asid = Some(asid),
        1 => next.asid = None,
        2 => next.asid = target.asid.map(|asid| asid.wrapping_add(1)),
        3 => next.leaves = !target.leaves,
        4 => next.company.regime = regime_at(below(whose, 0, 4)),
        5 => next.company.security = security_at(below(whose, 0, 4)),
        6 => next.company.vmid = target.company.vmid.wrapping_add(1),
        7 => next.company.stage2 = !target.company.stage2,
        8 => next.company.ns = !target.company.ns,
        9 => next.granule = 0,
        10 => next.granule = 4,
        11 => next.granule = 1 + small(size, 0, 3),
        12 => next.granule = small(size, 0, 256),
        // None, one that does not exist, all that exist, or one bit turned.
        13 => next.processors = 0,
        14 => next.processors |= power(count),
        15 => next.processors = power(count).wrapping_sub(1),
        16 => next.processors ^= power(below(mask, 0, 8)),
        17 => next.processors |= power(below(mask, 0, 64)),
        18 => next.first = target.first.wrapping_sub(1),
        19 => next.first = target.last.wrapping_add(1),
        20 => next.first ^= power(63),
        21 => next.first = 0,
        22 => next.first ^= power(55),
        23 => {
            let turned = power(54 + below(address, 0, 10));
            next.first ^= turned;
            next.last ^= turned;
        }
        24 => next.first = 0xFF80_0000_0000_0000,
        25 => next.last = target.last.wrapping_add(1),
        26 => next.last = target.first.wrapping_sub(1),
        27 => next.last ^= power(55),
        28 => next.last = 0x007F_FFFF_FFFF_FFFF,
        29 => next.last = 0x00FF_FFFF_FFFF_FFFF,
        30 => next.last ^= power(54 + below(address, 0, 10)),
        _ => next.last = u64::MAX,
    }
    next
}
