// The state check.
ghost use Rattle.std.specs.Prelude.{◌≡◌};
ghost use Rattle.machine.specs.State.{bad_fields, bad_state};

use crate::board::is_bad_board;
use crate::el2::el2_enabled;
use machine::State;

// The answer to a bad state is 2.
#[tactic(auto, unfolding(machine::specs::State::bad_state))]
pub fn is_bad(state: State) -> bool
    ensures { result ≡ bad_state state }
{
    is_bad_fields(state) || is_bad_board(state.board)
}

// Kept without `&&` and `||`: as branches, they made the check of a board of one domain take 1.15 times as long.
#[tactic(auto, unfolding(machine::specs::State::bad_fields))]
fn is_bad_fields(state: State) -> bool
    ensures { result ≡ bad_fields state }
{
    (3 < state.el)
        | ((state.el == 2) & !el2_enabled(state))
        | ((state.el == 3) & !state.present.el3)
        | (state.features.rme & !state.present.el3)
        | (state.features.rme & state.scr.nse & !state.scr.ns)
}
