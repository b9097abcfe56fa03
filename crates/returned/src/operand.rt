// The answers of an operand's reader and writer, as words.
ghost use Rattle.std.specs.Prelude.{◌≡◌};
ghost use Rattle.returned.specs.Words.{fields_words, read_words, written_words};

use machine::{Operand, Refusal};

#[tactic(auto, unfolding(crate::specs::Words::fields_words))]
fn fields_words(fields: Operand) -> [u64; 7]
    ensures { result ≡ fields_words fields }
{
    [
        fields.asid,
        fields.ns,
        fields.tg,
        fields.scale,
        fields.num,
        fields.ttl,
        fields.base,
    ]
}

#[tactic(auto, unfolding(crate::specs::Words::fields_words))]
pub fn read_words(read: Result<Operand, Refusal>) -> [u64; 7]
    ensures { result ≡ read_words read }
{
    read.map_or([0; 7], fields_words)
}

pub fn written_words(written: Result<(u64, u64), Refusal>) -> [u64; 2]
    ensures { result ≡ written_words written }
{
    match written {
        Ok((xt, xt2)) => [xt, xt2],
        Err(_) => [0, 0],
    }
}
