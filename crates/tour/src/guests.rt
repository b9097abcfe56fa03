// The guests: whose entries are theirs, the state of the processor while one of them runs, and the entries that they come with.
use machine::{
    Board, Company, Ds, Entry, Features, Flags, Hcr, Hcrx, Present, Regime, Scr, Security, State,
    Traps,
};
use std::io;

// EL1&0, Non-secure.
pub fn company(vmid: u16) -> Company {
    Company {
        regime: Regime::EL10,
        security: Security::NonSecure,
        vmid,
        stage2: false,
        ns: false,
    }
}

// An entry that a guest comes with, and what a lookup of it has to give.
#[derive(Clone, Copy)]
pub struct Held {
    pub entry: Entry,
    out: u64,
}

impl Held {
    fn new(entry: Entry, out: u64) -> Held {
        Held { entry, out }
    }

    pub fn is_of(&self, vmid: u16) -> bool {
        self.entry.company.vmid == vmid
    }

    // Whether its guest finds it, and not another one, at its address.
    pub fn is_found(&self, table: &[u64]) -> bool {
        let own = self.entry;
        let state = state(own.company.vmid);
        calls::look_up(table, state, Regime::EL10, own.asid, own.base).is_ok_and(|found| found.out
            == self.out)
    }
}

// The entries share addresses, so that one dropped for the wrong guest shows. No two give the same, so that nobody's word
// passes for another's.
pub fn entries() -> [Held; 9] {
    [
        Held::new(page(7, 5, 0x40000000), 0x100000000),
        Held::new(page(7, 6, 0x40001000), 0x140000000),
        Held::new(page(8, 5, 0x40000000), 0x180000000),
        Held::new(page(9, 5, 0x40000000), 0x1C0000000),
        Held::new(page(7, 5, 0x40002000), 0x200000000),
        Held::new(page(8, 6, 0x40001000), 0x240000000),
        Held::new(block(7, 2, 0x80000000), 0x280000000),
        Held::new(block(8, 2, 0x80000000), 0x2C0000000),
        Held::new(block(9, 1, 0xC0000000), 0x300000000),
    ]
}

fn page(vmid: u16, asid: u16, base: u64) -> Entry {
    Entry {
        processor: 0,
        company: company(vmid),
        asid,
        global: false,
        wide: false,
        granule: 1,
        level: 3,
        leaf: true,
        xs: true,
        base,
    }
}

// A block that every ASID of the guest finds.
fn block(vmid: u16, level: i8, base: u64) -> Entry {
    Entry {
        global: true,
        level,
        ..page(vmid, 0, base)
    }
}

pub fn fill(rt: &impl Print, table: &mut [u64]) -> io::Result<()> {
    for (k, own) in entries().iter().enumerate() {
        if let Err(refusal) = calls::insert(table, own.entry, own.out) {
            println!(rt; "entry {k} refused, answer {}", refusal.number())?;
        }
    }
    Ok(())
}

// The guest runs at EL1 under a host at EL2, on a board of one processor.
pub fn state(vmid: u16) -> State {
    let flags = Flags {
        local: false,
        inner: false,
        outer: false,
    };
    State {
        el: 1,
        present: Present {
            el2: true,
            el3: false,
        },
        features: Features {
            tlbirange: true,
            tlbios: false,
            d128: false,
            xs: false,
            lpa2: false,
            rme: false,
            sel2: false,
            fgt: false,
            hcx: false,
        },
        scr: Scr {
            ns: false,
            nse: false,
            eel2: false,
            fgten: false,
            hxen: false,
        },
        hcr: Hcr {
            e2h: false,
            tge: false,
            ttlb: false,
            ttlbis: false,
            ttlbos: false,
            nv: false,
        },
        hcrx: Hcrx {
            fnxs: false,
            fgtnxs: false,
        },
        traps: Traps {
            rvae1: flags,
            rvaae1: flags,
            rvale1: flags,
            rvaale1: flags,
        },
        ds: Ds {
            el1: false,
            el2: false,
            el3: false,
            stage2: false,
        },
        vmid,
        board: Board {
            own: 0,
            count: 1,
            inner: [0; 8],
            outer: [0; 8],
        },
    }
}
