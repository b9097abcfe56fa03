// What an operand's reader and writer are told, and an operand's fields, as C gives them.
ghost use Rattle.std.specs.Prelude.{◌≡◌};
ghost use Rattle.received.specs.Operands.{form_at, told_fits, told_in, told_from, fields_in};

use machine::{Form, Operand, Refusal, Told};

// C passes numbers: a record has no enum and no bool.
#[repr(C)]
#[derive(Clone, Copy)]
pub struct ToldRecord {
    pub tlbip: u64,
    pub form: u64,
    pub lpa2: u64,
    pub unit64k: u64,
}

#[repr(C)]
#[derive(Clone, Copy)]
pub struct FieldsRecord {
    pub asid: u64,
    pub ns: u64,
    pub tg: u64,
    pub scale: u64,
    pub num: u64,
    pub ttl: u64,
    pub base: u64,
}

// No TryFrom: both types are of other crates.
#[tactic(auto, unfolding(crate::specs::Operands::form_at))]
fn form_at(number: u64) -> Form
    ensures { result ≡ form_at number }
{
    match number {
        0 => Form::TwoRangesAsid,
        1 => Form::TwoRanges,
        2 => Form::OneRange,
        3 => Form::Stage2Ns,
        _ => Form::Stage2NoNs,
    }
}

impl ToldRecord {
    // Whether each field has a value that it can have.
    #[tactic(auto, unfolding(crate::specs::Operands::told_fits))]
    fn fits(self) -> bool
        ensures { result ≡ told_fits self }
    {
        (self.tlbip < 2) & (self.form < 5) & (self.lpa2 < 2) & (self.unit64k < 2)
    }
}

// Of any record, whether it fits or not.
#[tactic(auto, unfolding(crate::specs::Operands::told_in))]
pub fn told_in(told: ToldRecord) -> Told
    ensures { result ≡ told_in told }
{
    Told {
        tlbip: told.tlbip == 1,
        form: form_at(told.form),
        lpa2: told.lpa2 == 1,
        unit64k: told.unit64k == 1,
    }
}

impl TryFrom<ToldRecord> for Told {
    type Error = Refusal;

    ghost try_from_gives = { λ given told. told ≡ told_from given };

    fn try_from(given: ToldRecord) -> Result<Told, Refusal> {
        if !given.fits() {
            return Err(Refusal::Illegal);
        }
        Ok(told_in(given))
    }
}

impl From<FieldsRecord> for Operand {
    ghost from_gives = { λ given fields. fields ≡ fields_in given };

    #[tactic(auto, unfolding(crate::specs::Operands::fields_in))]
    fn from(given: FieldsRecord) -> Operand {
        Operand {
            asid: given.asid,
            ns: given.ns,
            tg: given.tg,
            scale: given.scale,
            num: given.num,
            ttl: given.ttl,
            base: given.base,
        }
    }
}
