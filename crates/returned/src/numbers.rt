// The number of each answer.
ghost use Rattle.std.specs.Prelude.{◌≡◌};
ghost use Rattle.machine.specs.Answer.{number_of, decoded_number, built_number, judged_number};

use machine::{Objection, Operation, Refusal};

// 0 where the call did what it was asked for, whatever it answers besides.
pub fn number_of<T>(answer: &Result<T, Refusal>) -> u32
    ensures { result ≡ number_of answer.now }
{
    match answer {
        Ok(_) => 0,
        Err(refusal) => u32::from(refusal.number()),
    }
}

pub fn decoded_number(decoded: Option<Operation>) -> u32
    ensures { result ≡ decoded_number decoded }
{
    number_of(&decoded.ok_or(Refusal::Unknown))
}

pub fn built_number(built: Option<u64>) -> u32
    ensures { result ≡ built_number built }
{
    number_of(&built.ok_or(Refusal::Illegal))
}

// Not one with `number_of`: a trait over both enums would be longer than the second `match`.
pub fn judged_number(judged: Result<(), Objection>) -> u32
    ensures { result ≡ judged_number judged }
{
    match judged {
        Ok(()) => 0,
        Err(objection) => u32::from(objection.number()),
    }
}
