// What stands in a list of works where no step is yet.
ghost use Rattle.std.specs.Prelude.{◌≡◌};
ghost use Rattle.steps.specs.Steps.{no_work};

use machine::{Company, Regime, Security, Work};

pub fn no_work() -> Work
    ensures { result ≡ no_work }
{
    let company = Company {
        regime: Regime::EL10,
        security: Security::Secure,
        vmid: 0,
        stage2: false,
        ns: false,
    };
    Work {
        company,
        reached: 0,
        granule: 0,
        first: 0,
        last: 0,
        level: None,
        wide: false,
        d128: false,
        leaves: false,
        asid: None,
        nxs: false,
    }
}
