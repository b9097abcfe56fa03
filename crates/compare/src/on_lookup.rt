// Look up, in tables aimed at the address.
use crate::lent::first_words;
use crate::tally::{Seen, Tally};
use inputs::{
    below, draw, fair_state, fill, flip, good_state, legal_address, number16, once_in, power,
    regime_at, words_of,
};
use machine::{Company, Regime, State, Work};

// What is asked: a state, a regime, an ASID and an address.
#[derive(Clone, Copy)]
struct Asked {
    state: State,
    regime: Regime,
    asid: u16,
    address: u64,
}

pub fn lookups() -> Tally {
    let mut tally = Tally::drawn(14000, 10, small_lookup);
    for (seed, words) in [(1, 6144), (2, 6144), (3, 6147), (4, 6146)] {
        tally.count(large_lookup(seed, words));
    }
    tally
}

impl Asked {
    fn of(state: State, seed: u64) -> Asked {
        let regime = regime_at(below(seed, 0, 4));
        let address = if once_in(seed, 1, 20) {
            draw(seed, 2)
        } else {
            legal_address(company_in(state, regime), draw(seed, 2))
        };
        Asked {
            state,
            regime,
            asid: number16(seed, 3),
            address,
        }
    }

    // Leaves of the own processor whose span holds the address.
    fn work(self, seed: u64) -> Work {
        Work {
            company: company_in(self.state, self.regime),
            reached: power(u64::from(self.state.board.own)),
            granule: 1 + below(seed, 0, 3) % 3,
            first: self.address,
            last: self.address,
            level: None,
            wide: flip(seed, 1),
            d128: true,
            leaves: true,
            asid: Some(u64::from(self.asid)),
            nxs: false,
        }
    }

    fn seen(self, table: &[u64]) -> Seen {
        let Asked {
            state,
            regime,
            asid,
            address,
        } = self;
        Seen::of(
            calls::look_up(table, state, regime, asid, address),
            second_tables::look_up(table, state, regime, asid, address),
        )
    }
}

fn company_in(state: State, regime: Regime) -> Company {
    Company {
        regime,
        security: processor::security_in(state, regime),
        vmid: processor::vmid_in(state, regime),
        stage2: false,
        ns: false,
    }
}

fn small_lookup(seed: u64) -> Seen {
    let asked = Asked::of(fair_state(draw(seed, 0)), draw(seed, 1));
    let slots = below(seed, 2, 7);
    let mut table = [0u64; 40];
    fill(
        &mut table,
        slots as usize,
        asked.work(draw(seed, 3)),
        asked.work(draw(seed, 4)),
        draw(seed, 5),
    );
    asked.seen(first_words(&table, words_of(slots, draw(seed, 6))))
}

// The entries are another's, so that many slots are examined.
fn large_lookup(seed: u64, words: usize) -> Seen {
    let state = good_state(draw(seed, 0));
    let asked = Asked::of(state, draw(seed, 1));
    let work = Asked::of(state, draw(seed, 2)).work(draw(seed, 3));
    let mut table = [0u64; 6160];
    fill(&mut table, 2048, work, work, draw(seed, 5));
    asked.seen(first_words(&table, words))
}
