// Instruction words, read and built.
ghost use Rattle.board.specs.Answers.{Answers};
ghost use Rattle.calls.specs.Promises.{Decodes, Builds};
ghost use Rattle.machine.specs.Answer.{decoded_number, built_number};
ghost use Rattle.received.specs.Operations.{operation_in};
ghost use Rattle.returned.specs.Words.{decoded_words, built_words};

use received::OperationRecord;

#[unsafe(no_mangle)]
pub extern "C" fn chickadoor_decode(word: u64, out: &mut [u64; 5]) -> u32
    ensures { Answers decoded_number decoded_words (Decodes word) result out.new }
{
    board::chickadoor_decode(word, out)
}

#[unsafe(no_mangle)]
pub extern "C" fn chickadoor_build(operation: OperationRecord, out: &mut [u64; 1]) -> u32
    ensures { Answers built_number built_words (Builds (operation_in operation)) result out.new }
{
    board::chickadoor_build(operation, out)
}
