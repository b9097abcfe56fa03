// Regimes and levels, as the numbers that C gives for them.
ghost use Rattle.std.specs.Prelude.{◌≡◌};
ghost use Rattle.received.specs.Numbers.{is_regime, level_from};

pub fn is_regime(number: u64) -> bool
    ensures { result ≡ is_regime number }
{
    number < 4
}

// -1 to 3, of a signed word.
#[tactic(auto, unfolding(crate::specs::Numbers::level_in, machine::specs::Span::is_level))]
pub fn level_at(word: u64) -> Option<i8>
    ensures { result ≡ level_from word }
{
    match word {
        0 => Some(0),
        1 => Some(1),
        2 => Some(2),
        3 => Some(3),
        0xFFFFFFFFFFFFFFFF => Some(-1),
        _ => None,
    }
}
