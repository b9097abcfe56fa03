// One pass over the slots of a table, which drops the entries that go.
ghost use Rattle.std.specs.Prelude.{◌+◌, ◌%◌, ◌^◌, ◌<◌, ◌≤◌, true, ◌≡◌, length, ltb};
ghost use Rattle.laws.specs.Slots.{count, cleared};
ghost use Rattle.machine.specs.Entry.{is_company};
ghost use Rattle.machine.specs.Goes.{key_of, drops};
ghost use Rattle.machine.specs.Tag.{company_tag};

use machine::Work;
use tags::{company_tag, end_at, entry_at, is_rest, past_others};
use works::goes;

// The key of a work stands in the lower 28 bits of a tag.
const KEY_BITS: u64 = 0xFFFFFFF;

// Three zeros for each slot that is dropped, and how many there are. One compare turns away the slots of other companies and granules.
// Kept as a `while` over words: a `for` over slot numbers cannot pass eight slots in a turn, and of slots that are lent to be written the library
// does not say what the words end as.
pub fn drop_all(table: &mut [u64], work: Work) -> usize
    requires { (length table.old % 3 ≡ 0) × (1 ≤ work.granule) × (work.granule ≤ 3) × (is_company work.company ≡ true) }
    ensures value { result ≡ count (drops work) table.old }
    ensures table_after { table.new ≡ cleared (drops work) table.old }
{
    let key = key_of(work);
    let mut i = 0;
    let mut n = 0;
    while i < table.len() {
        if table[i + 1] & KEY_BITS == key {
            if is_dropped(work, table[i], table[i + 1]) {
                table[i] = 0;
                table[i + 1] = 0;
                table[i + 2] = 0;
                n += 1;
            }
        } else {
            i = past_others(table, i, KEY_BITS, key);
        }
        i += 3;
    }
    n
}

// What is asked of a work stands in clauses: the book builds works as plain records, and `carry_out` proves it (`IsSound`).
// The lower part of the tag of every entry of the company and the granule.
fn key_of(work: Work) -> u64
    requires { work.granule ≤ 3 }
    ensures { (result ≡ key_of work) × (company_tag work.company < 2 ^ 26) × (work.company.vmid < 2 ^ 16) }
{
    company_tag(work.company) + work.granule * 0x4000000
}

// A slot with the key is turned away by its range before the rest of it is looked at, and the key is not looked at again.
fn is_dropped(work: Work, base: u64, tag: u64) -> bool
    requires keyed { (tag % 2 ^ 28 ≡ key_of work) × (company_tag work.company < 2 ^ 26) × (work.company.vmid < 2 ^ 16) }
    requires legal { (1 ≤ work.granule) × (work.granule ≤ 3) × (is_company work.company ≡ true) }
    ensures { result ≡ drops work base tag 0 }
{
    if work.last < base {
        return false;
    }
    let end = end_at(work.granule, tag);
    if is_before(base, end, work.first) {
        return false;
    }
    if !is_rest(base, tag, end) {
        return false;
    }
    goes(work, entry_at(base, tag))
}

// What starts at a base ends before the range starts. The sum would wrap for the base of a senseless slot.
fn is_before(base: u64, end: u64, first: u64) -> bool
    ensures { result ≡ ltb (base + end) first }
{
    base < first && end < first - base
}
