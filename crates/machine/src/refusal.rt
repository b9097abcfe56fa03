// Why a call does nothing: 01's "Answer numbers" gives each a number.
ghost use Rattle.std.specs.Prelude.{◌≡◌};
ghost use Rattle.machine.specs.Answer.{refusal_number};

// Numbers 1 to 7 in their order, of a word, a state and an operand: not one of the operations; a bad processor state; UNDEFINED; trapped to EL2
// with an exception class; ended without effect; TG is 00; the range is UNPREDICTABLE. Then 8, a field that does not fit or breaks a rule, or a
// slot that the table does not have; 9, no slot reads as empty; 10, a step of a list that would not be done; 13, a bad shape; 14, no slot that
// matches, of so many that were examined, or a slot that reads as empty.
#[derive(Clone, Copy, PartialEq, Eq)]
pub enum Refusal {
    Unknown,
    BadState,
    Undefined,
    Trapped(u8),
    NoEffect,
    NoGranule,
    Unpredictable,
    Illegal,
    NoSlot,
    Full,
    StepRefused(usize),
    BadShape,
    NotFound(usize),
    Empty,
}

impl Refusal {
    // A method, and no From: `refusal.number()` says which number it is, which `u8::from(refusal)` would not.
    pub fn number(self) -> u8
        ensures { result ≡ refusal_number self }
    {
        match self {
            Refusal::Unknown => 1,
            Refusal::BadState => 2,
            Refusal::Undefined => 3,
            Refusal::Trapped(_) => 4,
            Refusal::NoEffect => 5,
            Refusal::NoGranule => 6,
            Refusal::Unpredictable => 7,
            Refusal::Illegal | Refusal::NoSlot => 8,
            Refusal::Full => 9,
            Refusal::StepRefused(_) => 10,
            Refusal::BadShape => 13,
            Refusal::NotFound(_) | Refusal::Empty => 14,
        }
    }
}
