// Levels as signed numbers from -1 to 3.
ghost use Rattle.std.specs.Prelude.{◌≤◌, true, ◌≡◌};
ghost use Rattle.machine.specs.Span.{is_level, height_of};

#[tactic(auto, unfolding(machine::specs::Span::is_level))]
pub fn is_level(level: i8) -> bool
    ensures { result ≡ is_level level }
{
    matches!(level, -1..=3)
}

// 3 minus the level.
#[tactic(auto, unfolding(machine::specs::Span::is_level, machine::specs::Span::height_of))]
pub fn height_of(level: i8) -> u64
    requires { is_level level ≡ true }
    ensures { (result ≡ height_of level) × (result ≤ 4) }
{
    (3 - level) as u64
}
