// The TTL hint: 01 with 16K and no LPA2 reads as 00.
ghost use Rattle.std.specs.Prelude.{◌≡◌};
ghost use Rattle.machine.specs.Operand.{reads_as_zero, hint_of};

pub fn reads_as_zero(lpa2: bool, tg: u64, ttl: u64) -> bool
    ensures { result ≡ reads_as_zero lpa2 tg ttl }
{
    ttl == 1 && tg == 2 && !lpa2
}

#[tactic(auto, unfolding(machine::specs::Operand::hint_of))]
pub fn hint_of(lpa2: bool, tg: u64, ttl: u64) -> u64
    ensures { result ≡ hint_of lpa2 tg ttl }
{
    if reads_as_zero(lpa2, tg, ttl) { 0 } else { ttl }
}
