// Legal entries of every kind, and the same with one field changed, so that one rule alone may refuse them.
use crate::exponents::{exponent, height_with_span};
use crate::going::has_ids;
use crate::numbers::{height_of, level_at, regime_at, security_at};
use crate::seeds::{below, down, draw, flip, number16, once_in, power, small};
use machine::{Company, Entry};

pub fn legal_company(seed: u64) -> Company {
    let r = below(seed, 0, 5);
    let stage2 = r == 4 || r == 0 && once_in(seed, 1, 4);
    let regime = if r == 4 { 0 } else { r };
    let security = if r == 3 {
        3 * below(seed, 2, 2)
    } else {
        below(seed, 2, 3)
    };
    Company {
        regime: regime_at(regime),
        security: security_at(security),
        vmid: if regime == 0 { number16(seed, 3) } else { 0 },
        stage2,
        ns: stage2 && security == 0 && flip(seed, 4),
    }
}

pub fn legal_entry(seed: u64) -> Entry {
    let company = legal_company(draw(seed, 0));
    let ids = has_ids(company);
    let wide = flip(seed, 1);
    let granule = 1 + below(seed, 2, 3);
    let leaf = flip(seed, 3);
    let height = if leaf {
        below(seed, 4, 3)
    } else {
        height_with_span(wide, granule, 1 + below(seed, 4, 4))
    };
    let address = legal_address(company, draw(seed, 9));
    Entry {
        processor: small(seed, 5, 8),
        company,
        asid: if ids { number16(seed, 6) } else { 0 },
        global: ids && leaf && flip(seed, 7),
        wide,
        granule: granule as u8,
        level: level_at(height),
        leaf,
        xs: flip(seed, 8),
        base: down(address, exponent(wide, granule, height)),
    }
}

// An address in reach of the company: any, the lowest or the highest, in either half where there are two.
pub fn legal_address(company: Company, seed: u64) -> u64 {
    let two = has_ids(company);
    let bits = if two { 55 } else { 56 };
    let any = draw(seed, 1);
    let low = match below(seed, 0, 6) {
        0 => 0,
        1 => power(bits).wrapping_sub(1),
        2 => any % (1 << 32),
        _ => any % (1 << 55),
    };
    if two && flip(seed, 2) {
        low.wrapping_add(0xFF80_0000_0000_0000)
    } else {
        low
    }
}

pub fn broken(entry: Entry, seed: u64) -> Entry {
    let whose = draw(seed, 2);
    let size = draw(seed, 3);
    let place = draw(seed, 4);
    let address = draw(seed, 5);
    let height = height_of(entry.level);
    let k = exponent(entry.wide, entry.granule as u64, height);
    let mut next = entry;
    match below(seed, 0, 30) {
        0 => next.processor = 8 + small(seed, 1, 248),
        1 => next.processor = 8,
        2 => next.asid = entry.asid.wrapping_add(1),
        3 => next.global = !entry.global,
        4 => next.wide = !entry.wide,
        5 => next.granule = 0,
        6 => next.granule = 4,
        7 => next.level = level_at(5 + below(place, 0, 4)),
        8 => next.level = level_at(below(place, 0, 5)),
        9 => next.leaf = !entry.leaf,
        10 => next.company.regime = regime_at(below(whose, 0, 4)),
        11 => next.company.security = security_at(below(whose, 0, 4)),
        12 => next.company.security = security_at(3),
        13 => next.company.vmid = entry.company.vmid.wrapping_add(1),
        14 => next.company.stage2 = !entry.company.stage2,
        15 => next.company.ns = !entry.company.ns,
        16 => next.granule = small(size, 0, 256),
        17 => next.level = level_at(height.wrapping_add(1)),
        18 => next.level = level_at(4),
        19 => next.base ^= 1,
        20 => next.base ^= power(k % 64 / 2),
        21 => next.base ^= power(k.wrapping_sub(1)),
        22 => next.base ^= 4096,
        23 => next.base ^= power(55),
        24 => next.base ^= power(56),
        25 => next.base ^= power(63),
        26 => next.base ^= power(55 + below(address, 0, 9)),
        27 => next.base ^= power(k),
        28 => next.base = draw(address, 1),
        _ => {}
    }
    next
}
