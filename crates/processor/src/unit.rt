// Whether a TLBI base is in units of 64 KiB.
ghost use Rattle.std.specs.Prelude.{◌≡◌};
ghost use Rattle.machine.specs.Access.{ds_of, is_unit_64k};

use machine::{Ds, Regime, State};

#[tactic(auto, unfolding(machine::specs::Access::is_unit_64k))]
pub fn is_unit_64k(state: State, regime: Regime, stage2: bool) -> bool
    ensures { result ≡ is_unit_64k state regime stage2 }
{
    state.features.lpa2 && ds_of(state.ds, regime, stage2)
}

fn ds_of(ds: Ds, regime: Regime, stage2: bool) -> bool
    ensures { result ≡ ds_of ds regime stage2 }
{
    match (regime, stage2) {
        (Regime::EL10, true) => ds.stage2,
        (Regime::EL10, false) => ds.el1,
        (Regime::EL20 | Regime::EL2, _) => ds.el2,
        (Regime::EL3, _) => ds.el3,
    }
}
