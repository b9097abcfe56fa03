// Entries that a given work takes away, and the same with one field changed.
use crate::exponents::{exponent, height_with_span};
use crate::numbers::{height_of, level_at, regime_at, regime_number, security_at, security_number};
use crate::seeds::{below, down, draw, flip, number16, once_in, power, small};
use machine::{Company, Entry, Regime, Work};

// A span of the right level that holds the range's first address, its last, or one between them.
pub fn going(work: Work, seed: u64) -> Entry {
    let other = work.level.is_none() && work.d128 && once_in(seed, 0, 3);
    let wide = work.wide != other;
    let leaf = work.leaves || flip(seed, 1);
    let height = height_for(work, wide, leaf, draw(seed, 2));
    let company = work.company;
    let ids = has_ids(company);
    let global = ids && leaf && once_in(seed, 3, 4);
    let asid = match work.asid {
        _ if !ids => 0,
        Some(asid) if !global => (asid % 65536) as u16,
        _ => number16(seed, 5),
    };
    let address = address_in(work.first, work.last, draw(seed, 7));
    Entry {
        processor: processor_for(work.reached, draw(seed, 4)),
        company,
        asid,
        global,
        wide,
        granule: (work.granule % 4) as u8,
        level: level_at(height),
        leaf,
        xs: !work.nxs && flip(seed, 6),
        base: down(address, exponent(wide, work.granule, height)),
    }
}

fn height_for(work: Work, wide: bool, leaf: bool, seed: u64) -> u64 {
    match work.level.map(height_of) {
        None if leaf => below(seed, 0, 3),
        None => height_with_span(wide, work.granule, 1 + below(seed, 0, 4)),
        Some(h) if leaf => h,
        Some(h @ 0..=3) => height_with_span(wide, work.granule, h + 1 + below(seed, 0, 4 - h)),
        Some(_) => 4,
    }
}

pub fn has_ids(company: Company) -> bool {
    matches!(company.regime, Regime::EL10 | Regime::EL20) && !company.stage2
}

// A processor of the mask, mostly.
fn processor_for(reached: u64, seed: u64) -> u8 {
    let p = below(seed, 0, 8);
    if (reached >> p) % 2 == 1 {
        p as u8
    } else {
        lowest(reached)
    }
}

// The lowest processor of the mask, and 7 for a mask of none.
// 7 and no Option: a maker takes a processor in any case.
pub fn lowest(mask: u64) -> u8 {
    mask.trailing_zeros().min(7) as u8
}

pub fn address_in(first: u64, last: u64, seed: u64) -> u64 {
    match below(seed, 0, 4) {
        0 => first,
        1 => last,
        _ => {
            let many = last.wrapping_sub(first).wrapping_add(1);
            first.wrapping_add(below(seed, 1, many))
        }
    }
}

// One of the fields is changed, and the base brought to the span that the entry then has; or the base is just below the
// range, just above it, or on no multiple of the span.
pub fn missed(entry: Entry, work: Work, seed: u64) -> Entry {
    let which = below(seed, 0, 20);
    let turn = 1 + below(draw(seed, 2), 0, 3);
    let height = height_of(entry.level);
    let company = entry.company;
    let mut next = entry;
    match which {
        0 => next.processor = small(seed, 1, 8),
        1 | 2 => next.company.regime = regime_at((regime_number(company.regime) as u64 + turn) % 4),
        3 => next.company.security = security_at(
            (security_number(company.security) as u64 + turn) % 4,
        ),
        4 => next.company.vmid = company.vmid.wrapping_add(1),
        5 => next.company.stage2 = !company.stage2,
        6 => next.company.ns = !company.ns,
        7 => next.granule = 1 + small(seed, 1, 3),
        10 => next.level = level_at(height.wrapping_add(1)),
        11 => next.level = level_at(height.wrapping_sub(1)),
        12 => next.wide = !entry.wide,
        13 => next.asid = entry.asid.wrapping_add(1),
        14 => {
            next.asid = entry.asid.wrapping_add(1);
            next.global = !entry.global;
        }
        15 => next.global = !entry.global,
        16 => next.leaf = !entry.leaf,
        17 | 18 => next.xs = !entry.xs,
        _ => {}
    }
    let k = exponent(next.wide, next.granule as u64, height_of(next.level));
    next.base = match which {
        8 => down(work.first, k).wrapping_sub(power(k)),
        9 => down(work.last, k).wrapping_add(power(k)),
        19 => entry.base.wrapping_add(4096),
        _ => down(entry.base, k),
    };
    next
}
