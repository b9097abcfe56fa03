// The reader and the writer of an operand.
ghost use Rattle.std.specs.Prelude.{ℕ, Result};
ghost use Rattle.board.specs.Answers.{Answers};
ghost use Rattle.calls.specs.Promises.{Reads, Writes};
ghost use Rattle.machine.specs.declared.operand.Operand.{Operand};
ghost use Rattle.machine.specs.declared.refusal.Refusal.{Refusal};
ghost use Rattle.received.specs.Operands.{told_fits, told_in, fields_in};
ghost use Rattle.returned.specs.Known.{read_number_if, read_words_if, written_number_if, written_words_if};

use received::{FieldsRecord, ToldRecord};

#[unsafe(no_mangle)]
pub extern "C" fn chickadoor_read_operand(
    told: ToldRecord,
    xt: u64,
    xt2: u64,
    out: &mut [u64; 7],
) -> u32
    ensures { Answers (read_number_if (told_fits told)) (read_words_if (told_fits told)) (λ (a : Result Operand Refusal). Reads (told_in told) xt xt2 a) result out.new }
{
    board::chickadoor_read_operand(told, xt, xt2, out)
}

#[unsafe(no_mangle)]
pub extern "C" fn chickadoor_write_operand(
    told: ToldRecord,
    fields: FieldsRecord,
    out: &mut [u64; 2],
) -> u32
    ensures { Answers (written_number_if (told_fits told)) (written_words_if (told_fits told)) (λ (a : Result (ℕ × ℕ) Refusal). Writes (told_in told) (fields_in fields) a) result out.new }
{
    board::chickadoor_write_operand(told, fields, out)
}
