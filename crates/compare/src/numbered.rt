// Answers by their numbers in the requirements' table.
use machine::{Objection, Refusal};

pub trait Numbered {
    fn number(&self) -> u8;
}

impl Numbered for Refusal {
    fn number(&self) -> u8 {
        Refusal::number(*self)
    }
}

impl Numbered for Objection {
    fn number(&self) -> u8 {
        Objection::number(*self)
    }
}

// 0 where something was done.
impl<T, E: Numbered> Numbered for Result<T, E> {
    fn number(&self) -> u8 {
        match self {
            Ok(_) => 0,
            Err(refused) => refused.number(),
        }
    }
}
