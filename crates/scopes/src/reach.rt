// The processors that an operation reaches.
ghost use Rattle.std.specs.Prelude.{◌≡◌, ℕ, ◌%◌, ◌^◌, ◌<◌, eqb, get_or};
ghost use Rattle.laws.specs.Mask.{mask_from};
ghost use Rattle.machine.specs.Access.{reaches_by, reached_of};

use crate::bytes::{gathered, zero_bytes};
use machine::{Board, Operation, Share, State};
use processor::{domain_at, is_one_domain, number_of};

// A bit for each processor, number 0 lowest.
pub fn reached_by(state: State, op: Operation) -> u64
    ensures { result ≡ reached_of state op }
{
    let eight = reached_of_eight(op.share, state.board);
    below(eight, state.board.count)
}

// The same of all eight numbers that a processor can have, whatever the count.
fn reached_of_eight(share: Share, board: Board) -> u64
    ensures { (result ≡ mask_from (reaches_by share board) 0 8) × (result < 256) }
{
    match share {
        Share::Local => only(board.own),
        Share::Inner => mates(board.inner, board.own),
        Share::Outer => mates(board.outer, board.own),
    }
}

fn only(own: u8) -> u64
    ensures { (result ≡ mask_from (λ (p : ℕ). eqb p own) 0 8) × (result < 256) }
{
    if own < 8 {
        return 1 << (own as u64);
    }
    0
}

// Those in the own domain: most boards are one domain, and it has all eight. A number past the last has domain 0, whatever the others have.
fn mates(domains: [u8; 8], own: u8) -> u64
    ensures { (result ≡ mask_from (λ (p : ℕ). eqb (get_or domains p 0) (get_or domains own 0)) 0 8) × (result < 256) }
{
    if own < 8 && is_one_domain(domains) {
        return 255;
    }
    mates_by_bytes(domains, own)
}

// The same on any board: a byte that is the own domain is 0 in the difference of all eight to it.
fn mates_by_bytes(domains: [u8; 8], own: u8) -> u64
    ensures { (result ≡ mask_from (λ (p : ℕ). eqb (get_or domains p 0) (get_or domains own 0)) 0 8) × (result < 256) }
{
    let domain = domain_at(domains, own) as u64;
    let difference = number_of(domains) ^ (domain * 0x0101010101010101);
    let same = zero_bytes(difference);
    gathered(same)
}

// The bits below the count.
fn below(eight: u64, count: u8) -> u64
    requires { eight < 256 }
    ensures { result ≡ eight % 2 ^ count }
{
    if count < 8 {
        return eight % (1 << (count as u64));
    }
    eight
}
