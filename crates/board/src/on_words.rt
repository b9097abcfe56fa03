// Instruction words, read and built.
ghost use Rattle.board.specs.Answers.{Answers};
ghost use Rattle.calls.specs.Promises.{Decodes, Builds};
ghost use Rattle.machine.specs.Answer.{decoded_number, built_number};
ghost use Rattle.received.specs.Operations.{operation_in};
ghost use Rattle.returned.specs.Words.{decoded_words, built_words};

use machine::{Operation, Refusal};
use received::OperationRecord;
use returned::{built_number, built_words, decoded_number, decoded_words};

pub fn chickadoor_decode(word: u64, out: &mut [u64; 5]) -> u32
    ensures { Answers decoded_number decoded_words (Decodes word) result out.new }
{
    let decoded = calls::decode(word);
    *out = decoded_words(decoded);
    decoded_number(decoded)
}

pub fn chickadoor_build(operation: OperationRecord, out: &mut [u64; 1]) -> u32
    ensures { Answers built_number built_words (Builds (operation_in operation)) result out.new }
{
    let Ok(operation) = Operation::try_from(operation) else {
        *out = [0];
        return u32::from(Refusal::Illegal.number());
    };
    let built = calls::build(operation);
    *out = built_words(built);
    built_number(built)
}
