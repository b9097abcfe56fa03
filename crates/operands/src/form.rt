// What each form of operand has.
ghost use Rattle.std.specs.Prelude.{◌≡◌};
ghost use Rattle.machine.specs.Operand.{has_asid, has_ns, copies_top};

use machine::Form;

pub fn has_asid(form: Form) -> bool
    ensures { result ≡ has_asid form }
{
    matches!(form, Form::TwoRangesAsid)
}

pub fn has_ns(form: Form) -> bool
    ensures { result ≡ has_ns form }
{
    matches!(form, Form::Stage2Ns)
}

pub fn copies_top(form: Form) -> bool
    ensures { result ≡ copies_top form }
{
    matches!(form, Form::TwoRangesAsid | Form::TwoRanges)
}
