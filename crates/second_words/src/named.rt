// An operation by its numbers, some of which stand for no name or no shareability.
use crate::spelling::{of_name, of_share};
use machine::Operation;

// `name`: 0 RVAE1, 1 RVAAE1, 2 RVALE1, 3 RVAALE1, 4 RVAE2, 5 RVALE2, 6 RVAE3, 7 RVALE3, 8 RIPAS2E1, 9 RIPAS2LE1;
// `share`: 0 local, 1 IS, 2 OS.
#[derive(Clone, Copy)]
pub struct Named {
    pub name: u8,
    pub share: u8,
    pub nxs: bool,
    pub tlbip: bool,
    pub rt: u8,
}

impl From<Operation> for Named {
    fn from(op: Operation) -> Named {
        Named {
            name: of_name(op.name).0,
            share: of_share(op.share).0,
            nxs: op.nxs,
            tlbip: op.tlbip,
            rt: op.rt,
        }
    }
}
