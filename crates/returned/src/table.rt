// The answers of the calls on tables and lists, as words.
ghost use Rattle.std.specs.Prelude.{◌≡◌};
ghost use Rattle.machine.specs.Answer.{number_of};
ghost use Rattle.returned.specs.Known.{found_number, found_words};
ghost use Rattle.returned.specs.Words.{inserted_words, looked_up_words, slot_words, executed_words, ran_words, judged_words};

use crate::entry::{entry_words, no_entry};
use machine::{Entry, Match, Objection, Refusal};

// The slot.
pub fn inserted_words(inserted: Result<usize, Refusal>) -> [u64; 1]
    ensures { result ≡ inserted_words inserted }
{
    [inserted.unwrap_or(0) as u64]
}

// What a look up comes to where `known` says that the regime that C gave is one: 13 and 2 come before 8, which one that is none gets. So the
// regime goes on as a number and a flag, and not as an Option that would be refused first.
pub fn found(known: bool, looked: Result<Match, Refusal>) -> Result<Match, Refusal>
    ensures number { number_of result ≡ found_number known looked }
    ensures words { looked_up_words result ≡ found_words known looked }
{
    match looked {
        Ok(_) | Err(Refusal::NotFound(_)) if !known => Err(Refusal::Illegal),
        _ => looked,
    }
}

// The slot, the output word, and how many slots were examined.
pub fn looked_up_words(looked: Result<Match, Refusal>) -> [u64; 3]
    ensures { result ≡ looked_up_words looked }
{
    match looked {
        Ok(found) => [found.slot as u64, found.out, found.examined as u64],
        Err(Refusal::NotFound(examined)) => [0, 0, examined as u64],
        Err(_) => [0, 0, 0],
    }
}

// The entry, and the output word.
pub fn slot_words(read: Result<(Entry, u64), Refusal>) -> [u64; 15]
    ensures { result ≡ slot_words read }
{
    match read {
        Ok((entry, output)) => entry_words(entry, output),
        Err(_) => no_entry(0),
    }
}

// Not one function with `ran_words`: this tells a trap's class, that a step, and each has its own definition.
// How many entries were dropped, and the exception class of a trap.
pub fn executed_words(executed: Result<usize, Refusal>) -> [u64; 2]
    ensures { result ≡ executed_words executed }
{
    match executed {
        Ok(dropped) => [dropped as u64, 0],
        Err(Refusal::Trapped(class)) => [0, class as u64],
        Err(_) => [0, 0],
    }
}

// How many entries were dropped, and the step that was refused.
pub fn ran_words(ran: Result<usize, Refusal>) -> [u64; 2]
    ensures { result ≡ ran_words ran }
{
    match ran {
        Ok(sum) => [sum as u64, 0],
        Err(Refusal::StepRefused(step)) => [0, step as u64],
        Err(_) => [0, 0],
    }
}

// The entry that would survive, and the step.
pub fn judged_words(judged: Result<(), Objection>) -> [u64; 15]
    ensures { result ≡ judged_words judged }
{
    match judged {
        Err(Objection::Refused(step) | Objection::Outside(step)) => no_entry(step as u64),
        Err(Objection::Gap(entry)) => entry_words(entry, 0),
        _ => no_entry(0),
    }
}
