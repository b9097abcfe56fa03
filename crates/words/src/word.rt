// The operation word type: SYS and SYSP are its constants, `is_fixed`, `has_crm`, `read` and `build` its functions.
ghost use Rattle.std.specs.Prelude.{◌≡◌, cond, ◌+◌, ◌≤◌};
ghost use Rattle.machine.specs.Word.{crm_in, is_fixed, read_of, built_of};
ghost use Rattle.words.specs.Crm.{has_crm};

use crate::numbers::{name_bits, share_bits};
use crate::row_of;
use machine::Operation;

#[derive(Clone, Copy)]
pub struct OperationWord {
    pub bits: u64,
}

impl OperationWord {
    pub const SYS: u64 = 0xD508_0000;

    pub const SYSP: u64 = 0xD548_0000;

    // The fixed bits of SYS or SYSP, and a CRn of 8 or 9. Most words of a program have others.
    pub fn is_fixed(word: u64) -> bool
        ensures { result ≡ is_fixed word }
    {
        let fixed = word / 524288 * 524288;
        let crn = word / 4096 % 16;
        matches!(fixed, OperationWord::SYS | OperationWord::SYSP) && matches!(crn, 8 | 9)
    }

    // Whether CRm is one that some operation has: few of the system instructions next to them do.
    #[tactic(auto, unfolding(crate::specs::Crm::has_crm))]
    pub fn has_crm(word: u64) -> bool
        ensures { result ≡ has_crm (crm_in word) }
    {
        matches!(word / 256 % 16, 0 | 2 | 4 | 5 | 6)
    }

    // Any number gets an answer: 2^32 or more has other fixed bits.
    #[tactic(auto, unfolding(machine::specs::Word::read_of))]
    pub fn read(self) -> Option<Operation>
        ensures { result ≡ read_of self.bits }
    {
        let word = self.bits;
        if !OperationWord::is_fixed(word) {
            return None;
        }
        let op1 = (word / 65536 % 8) as u8;
        let crm = (word / 256 % 16) as u8;
        let op2 = (word / 32 % 8) as u8;
        let (name, share) = row_of(op1, crm, op2)?;
        Some(Operation {
            tlbip: word / 524288 * 524288 == OperationWord::SYSP,
            nxs: word / 4096 % 16 == 9,
            share,
            name,
            rt: (word % 32) as u8,
        })
    }

    // Any parts get an answer: an Rt of 32 or more has no place in a word.
    #[tactic(auto, unfolding(machine::specs::Word::built_of, machine::specs::Word::word_of))]
    pub fn build(op: Operation) -> Option<u64>
        ensures { result ≡ built_of op }
    {
        if op.rt < 32 {
            let named = name_bits(op.name);
            let shared = share_bits(op.name, op.share);
            let crn = crn_of(op.nxs);
            let rt = op.rt as u64;
            Some(OperationWord::SYS + sysp_bit(op.tlbip) + named + crn * 4096 + shared + rt)
        } else {
            None
        }
    }
}

// What SYSP has more than SYS: bit 22. Added in `build` it is the flag, shifted; all fixed bits from one function would be a choice of two constants.
fn sysp_bit(tlbip: bool) -> u64
    ensures value { 0xD5080000 + result ≡ cond tlbip 0xD5480000 0xD5080000 }
    ensures upper_bound { result ≤ 0x400000 }
{
    if tlbip {
        OperationWord::SYSP - OperationWord::SYS
    } else {
        0
    }
}

fn crn_of(nxs: bool) -> u64
    ensures { result ≡ cond nxs 9 8 }
{
    if nxs { 9 } else { 8 }
}
