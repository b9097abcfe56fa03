// Regimes by the numbers that the access rules are given: 0 EL1&0, 1 EL2&0, 2 EL2, 3 EL3.
use machine::Regime;

pub fn number_of_regime(regime: Regime) -> u8 {
    match regime {
        Regime::EL10 => 0,
        Regime::EL20 => 1,
        Regime::EL2 => 2,
        Regime::EL3 => 3,
    }
}
