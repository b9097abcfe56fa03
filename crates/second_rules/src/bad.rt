// Bad processor states, in the order of the requirements.
use crate::domains::any_torn;
use crate::security::el2_enabled;
use machine::{Board, State};

fn is_bad_board(board: Board) -> bool {
    // "count not 1 to 8"
    if board.count == 0 || board.count > 8 {
        return true;
    }
    // "own number not below it"
    if board.own >= board.count {
        return true;
    }
    // "two processors in one inner and different outer domains"
    any_torn(board)
}

pub fn is_bad(state: State) -> bool {
    // "EL over 3"
    if state.el > 3 {
        return true;
    }
    // "at EL2 with it absent or disabled"
    if state.el == 2 && !el2_enabled(state) {
        return true;
    }
    // "at EL3 with it absent"
    if state.el == 3 && !state.present.el3 {
        return true;
    }
    // "RME without EL3"
    if state.features.rme && !state.present.el3 {
        return true;
    }
    // "RME with {NSE, NS} = {1, 0}"
    if state.features.rme && state.scr.nse && !state.scr.ns {
        return true;
    }
    is_bad_board(state.board)
}
