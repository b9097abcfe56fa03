// Whose an entry can be.
ghost use Rattle.std.specs.Prelude.{not, ◌&&◌, ◌||◌, ◌≡◌, eqb};
ghost use Rattle.machine.specs.Entry.{is_el10, is_state_of, is_company, has_asids};
ghost use Rattle.machine.specs.State.{is_secure};

use machine::{Company, Regime, Security};
use processor::is_secure;
use ranges::is_two_ranges;

// EL3's state is Root or Secure, other regimes' never Root.
fn is_state_of(regime: Regime, security: Security) -> bool
    ensures { result ≡ is_state_of regime security }
{
    if regime == Regime::EL3 {
        matches!(security, Security::Root | Security::Secure)
    } else {
        security != Security::Root
    }
}

// "IPA space (as NS; Secure stage 2 only, else 0)"
fn is_space_of(company: Company) -> bool
    ensures { result ≡ (not company.ns || (is_secure company.security && company.stage2)) }
{
    !company.ns || is_secure(company.security) && company.stage2
}

// "VMID (0 outside EL1&0)", and "Stage 2 is EL1&0".
fn is_guest_of(company: Company) -> bool
    ensures { result ≡ ((is_el10 company.regime || eqb company.vmid 0) && (not company.stage2 || is_el10 company.regime)) }
{
    company.regime == Regime::EL10 || !company.stage2 && company.vmid == 0
}

#[tactic(auto, unfolding(machine::specs::Entry::is_company))]
pub fn is_company(company: Company) -> bool
    ensures { result ≡ is_company company }
{
    is_space_of(company) && is_guest_of(company) && is_state_of(company.regime, company.security)
}

// Stage 1 of EL1&0 and EL2&0.
#[tactic(auto, unfolding(machine::specs::Entry::has_asids))]
pub fn has_asids(company: Company) -> bool
    ensures { result ≡ has_asids company }
{
    is_two_ranges(company.regime) && !company.stage2
}
