// The answers about instruction words, as words.
ghost use Rattle.std.specs.Prelude.{◌≡◌};
ghost use Rattle.returned.specs.Words.{operation_words, decoded_words, built_words};

use machine::Operation;

// Name, shareability, NXS, TLBIP and Rt.
pub fn decoded_words(decoded: Option<Operation>) -> [u64; 5]
    ensures { result ≡ decoded_words decoded }
{
    decoded.map_or([0; 5], operation_words)
}

#[tactic(auto, unfolding(crate::specs::Words::operation_words))]
fn operation_words(op: Operation) -> [u64; 5]
    ensures { result ≡ operation_words op }
{
    [
        op.name as u64,
        op.share as u64,
        op.nxs as u64,
        op.tlbip as u64,
        op.rt as u64,
    ]
}

pub fn built_words(built: Option<u64>) -> [u64; 1]
    ensures { result ≡ built_words built }
{
    [built.unwrap_or(0)]
}
