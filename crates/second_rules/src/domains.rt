// The domains of the processors, held against each other pair by pair.
use machine::Board;

// Two functions of a line each, as the requirements name the two kinds of domain.
pub fn same_inner(board: Board, i: usize, j: usize) -> bool {
    i < 8 && j < 8 && board.inner[i] == board.inner[j]
}

pub fn same_outer(board: Board, i: usize, j: usize) -> bool {
    i < 8 && j < 8 && board.outer[i] == board.outer[j]
}

// Whether some two are in one inner and different outer domains: "only those below the count are read".
pub fn any_torn(board: Board) -> bool {
    let count = usize::from(board.count);
    (0..count).any(|i| (0..count).any(|j| same_inner(board, i, j) && !same_outer(board, i, j)))
}
