// The board: how many processors there are, and whether their domains agree.
ghost use Rattle.std.specs.Prelude.{◌≡◌, true, not, ◌<◌, ◌≤◌, eqb, get_or};
ghost use Rattle.laws.specs.Every.{every};
ghost use Rattle.machine.specs.State.{agree, bad_board};
ghost use Rattle.processor.specs.Domains.{is_first, number_of};

use machine::Board;

#[tactic(auto, unfolding(machine::specs::State::bad_board, machine::specs::State::domains_agree))]
pub fn is_bad_board(board: Board) -> bool
    ensures { result ≡ bad_board board }
{
    if board.count < 1 || 8 < board.count || board.count <= board.own {
        return true;
    }
    // most boards are one outer domain, and nothing can clash there; nor where inner and outer domains are the same
    if is_one_domain(board.outer) || are_same(board) {
        return false;
    }
    domains_clash(board)
}

// Whether all eight are in the domain of the first: as one number of eight bytes that is one load, one product and one compare.
// Kept by one number, as at `are_same`: `==` on arrays compares eight bytes one by one.
pub fn is_one_domain(domains: [u8; 8]) -> bool
    ensures { result ≡ every (is_first domains) 8 }
{
    let first = domains[0] as u64;
    number_of(domains) == first * 0x0101010101010101
}

// Whether each has the same inner and outer domain. Kept by their numbers: by `==` on the arrays the test of a state took 1.4 times as long.
fn are_same(board: Board) -> bool
    ensures { result ≡ eqb (number_of board.inner) (number_of board.outer) }
{
    number_of(board.inner) == number_of(board.outer)
}

// The domains as the bytes of a number, that of processor 0 lowest.
#[tactic(auto, using(crate::proofs::Number::eight_bytes))]
pub fn number_of(domains: [u8; 8]) -> u64
    ensures { result ≡ number_of domains }
{
    u64::from_le_bytes(domains)
}

// Whether two processors below the count are in one inner and different outer domains: each is held against those below it, unless its inner domain is
// above all of theirs.
// By number: a processor is held against those below it, in both arrays.
fn domains_clash(board: Board) -> bool
    requires { (1 ≤ board.count) × (board.count ≤ 8) }
    ensures { result ≡ not (every (λ p. every (agree board p) p) board.count) }
{
    let mut high = board.inner[0];
    for p in 1..board.count {
        let domain = board.inner[p as usize];
        if high < domain {
            high = domain;
        } else if clashes_below(board, p) {
            return true;
        }
    }
    false
}

// Where no two below it clash, a processor clashes with all of those in its inner domain or with none: the first that is found tells.
// By number: one place of two arrays is looked at, for which a chain of `zip` and `find` is no plainer.
fn clashes_below(board: Board, p: u8) -> bool
    requires { (p < 8) × (every (λ q. every (agree board q) q) p ≡ true) }
    ensures { result ≡ not (every (agree board p) p) }
{
    let i = p as usize;
    for q in (0..i).rev() {
        if board.inner[q] == board.inner[i] {
            return board.outer[q] != board.outer[i];
        }
    }
    false
}

// A number past the last has domain 0, so that any number gets an answer.
pub fn domain_at(domains: [u8; 8], p: u8) -> u8
    ensures { result ≡ get_or domains p 0 }
{
    domains.get(p as usize).copied().unwrap_or(0)
}
