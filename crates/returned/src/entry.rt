// An entry as words.
ghost use Rattle.std.specs.Prelude.{◌≡◌};
ghost use Rattle.machine.specs.Answer.{no_entry};
ghost use Rattle.returned.specs.Words.{level_word, entry_words};

use machine::Entry;
use spans::{height_of, is_level};
use tags::{flag, regime_number, security_number};

// A level as a signed word: 3 less its height, and -1, whose height is 4, wraps.
// 0 for a level that is none, as the definition `level_word` says: any level gets a word.
#[tactic(auto, unfolding(crate::specs::Words::level_word))]
fn level_word(level: i8) -> u64
    ensures { result ≡ level_word level }
{
    if is_level(level) {
        3_u64.wrapping_sub(height_of(level))
    } else {
        0
    }
}

// The fields of an entry, and a word behind them.
#[tactic(auto, unfolding(crate::specs::Words::entry_words))]
pub fn entry_words(entry: Entry, behind: u64) -> [u64; 15]
    ensures { result ≡ entry_words entry behind }
{
    let company = entry.company;
    [
        entry.processor as u64,
        regime_number(company.regime),
        security_number(company.security),
        company.vmid as u64,
        flag(company.stage2),
        flag(company.ns),
        entry.asid as u64,
        flag(entry.global),
        flag(entry.wide),
        entry.granule as u64,
        level_word(entry.level),
        flag(entry.leaf),
        flag(entry.xs),
        entry.base,
        behind,
    ]
}

// Zeros where an entry would be, and a word behind them.
#[tactic(auto, using(crate::proofs::Words::no_words))]
pub fn no_entry(behind: u64) -> [u64; 15]
    ensures { result ≡ entry_words no_entry behind }
{
    [0, 0, 0, 0, 0, 0, 0, 0, 0, 0, 0, 0, 0, 0, behind]
}
