// Look up: the lowest slot that translates an address.
ghost use Rattle.std.specs.Prelude.{◌%◌, ◌^◌, ◌<◌, true, ◌&&◌, ◌≡◌, length};
ghost use Rattle.laws.specs.Slots.{first_slot};
ghost use Rattle.machine.specs.Entry.{is_legal};
ghost use Rattle.machine.specs.Table.{stage1_of, holds_address, matches, looked_up_of};
ghost use Rattle.machine.specs.Tag.{layout, company_at, entry_at, is_entry};

use crate::shape::is_table;
use entries::{has_asids, span_of};
use machine::{Company, Entry, Match, Refusal, Regime, State};
use processor::{is_bad, security_in, vmid_in};
use spans::in_span;
use tags::{company_tag, entry_at, is_entry, past_others, span_at};

// What a tag says of a leaf and whose it is: the processor and all above it, the leaf bit, and the company.
const OWN_LEAF: u64 = 0xFFFA000003FFFFFF;

#[tactic(auto, unfolding(machine::specs::Table::looked_up_of))]
pub fn look_up(
    table: &[u64],
    state: State,
    regime: Regime,
    asid: u16,
    address: u64,
) -> Result<Match, Refusal>
    ensures value { result ≡ looked_up_of state regime asid address table.now }
    ensures table_kept { table.exit.now ≡ table.entry.now }
{
    if !is_table(table.len()) {
        return Err(Refusal::BadShape);
    }
    if is_bad(state) {
        return Err(Refusal::BadState);
    }
    let key = company_tag(stage1_of(state, regime));
    let slot = first_match(table, key, state.board.own, asid, address).ok_or(Refusal::NotFound(
        table.len() / 3,
    ))?;
    Ok(Match {
        slot,
        out: table[3 * slot + 2],
        examined: slot + 1,
    })
}

// Stage 1 of a regime, with the VMID and the security state that an operation would have.
#[tactic(auto, unfolding(machine::specs::Table::stage1_of))]
fn stage1_of(state: State, regime: Regime) -> Company
    ensures { (result ≡ stage1_of state regime) × (result.vmid < 2 ^ 16) }
{
    Company {
        regime,
        security: security_in(state, regime),
        vmid: vmid_in(state, regime),
        stage2: false,
        ns: false,
    }
}

// The lowest slot that matches. The key is the part of a tag that says whose a slot is. Only a leaf of the own processor and the company
// translates: one masked compare turns all other slots away.
// Kept as a `while` over words: a `position` over the slots takes 1.15 times as long, and blocks of eight 1.5 times where all slots have the key.
#[tactic(auto, unfolding(laws::specs::Slots::first, machine::specs::Table::matches, machine::specs::Tag::company_at))]
fn first_match(table: &[u64], key: u64, own: u8, asid: u16, address: u64) -> Option<usize>
    requires { (length table.now % 3 ≡ 0) × (key % 2 ^ 4 ≡ layout) × (key < 2 ^ 26) }
    ensures { result ≡ first_slot (matches (company_at key) own asid address) table.now }
{
    let want = key + 0x2000000000000 + (own as u64) * 0x8000000000000;
    let mut i = 0;
    while i < table.len() {
        if table[i + 1] & OWN_LEAF == want {
            if is_match(own, asid, address, table[i], table[i + 1]) {
                return Some(i / 3);
            }
        } else {
            i = past_others(table, i, OWN_LEAF, want);
        }
        i += 3;
    }
    None
}

// What is sought stays numbers, as the book's `matches` takes them: a struct would be taken apart in each clause.
// Whether a slot translates the address. Its span turns most slots away before the rest is looked at.
#[tactic(auto, unfolding(machine::specs::Tag::is_entry, machine::specs::Table::holds_address, machine::specs::Tag::entry_at))]
fn is_match(own: u8, asid: u16, address: u64, base: u64, tag: u64) -> bool
    ensures { result ≡ (is_entry base tag && holds_address own asid address (entry_at base tag)) }
{
    let k = span_at(tag);
    if 54 < k {
        return false;
    }
    if base >> k != address >> k {
        return false;
    }
    is_held(own, asid, address, base, tag)
}

// What is left to test, of the few slots whose span holds the address. Taken into the loop over slots it made each turn longer, and a pass over a
// table of one guest took 1.2 times as long.
#[inline(never)]
#[tactic(auto, unfolding(machine::specs::Tag::is_entry, machine::specs::Table::holds_address, machine::specs::Tag::entry_at))]
fn is_held(own: u8, asid: u16, address: u64, base: u64, tag: u64) -> bool
    ensures { result ≡ (is_entry base tag && holds_address own asid address (entry_at base tag)) }
{
    if !is_entry(base, tag) {
        return false;
    }
    let entry = entry_at(base, tag);
    holds_address(entry, own, asid, address)
}

// An entry of the company translates the address.
#[tactic(auto, unfolding(machine::specs::Entry::is_legal, machine::specs::Table::holds_address))]
fn holds_address(entry: Entry, own: u8, asid: u16, address: u64) -> bool
    requires { is_legal entry ≡ true }
    ensures { result ≡ holds_address own asid address entry }
{
    let asids = has_asids(entry.company);
    let k = span_of(entry);
    let inside = in_span(entry.base, k, address);
    entry.leaf & (entry.processor == own) & inside & ((entry.asid == asid) | entry.global | !asids)
}
