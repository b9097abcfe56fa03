// The processors that an operation reaches.
use crate::domains::{same_inner, same_outer};
use machine::{Board, Share};

// "own number; same inner; same outer domain", below the count.
fn reaches(board: Board, share: Share, i: usize) -> bool {
    let own = usize::from(board.own);
    i < usize::from(board.count)
        && match share {
            Share::Local => i == own,
            Share::Inner => same_inner(board, own, i),
            Share::Outer => same_outer(board, own, i),
        }
}

// Processor i counts 2^i.
pub fn reached(board: Board, share: Share) -> u64 {
    (0..8usize).rev().fold(
        0u64,
        |mask, i| mask
            .wrapping_mul(2)
            .wrapping_add(u64::from(reaches(board, share, i))),
    )
}
