// Slots that are passed by a part of their tags.
ghost use Rattle.std.specs.Prelude.{◌%◌, ◌<◌, ◌≤◌, ◌≡◌, length, position};
ghost use Rattle.std.specs.List.{position_or_len};
ghost use Rattle.laws.specs.Chunks.{on_slot, has_key};
ghost use Rattle.laws.specs.Passed.{Passed};

// Mask and key stay two numbers: a mask is a constant of its caller.
// Whole slots are asked for in a clause: the pages name what this asks of its callers, and a type would ask more.
// A table and a place in it: the promise `Passed` speaks of places in the table, and the pages name it.
// The last of the slots behind one slot that are passed, none of which has the key under the mask.
pub fn past_others(table: &[u64], from: usize, mask: u64, key: u64) -> usize
    requires { (length table.now % 3 ≡ 0) × (from % 3 ≡ 0) × (from < length table.now) }
    ensures { Passed mask key table.now from result }
{
    let (slots, _) = table[from + 3..].as_chunks::<3>();
    from + 3 * passed(slots, mask, key)
}

// How many slots stand before the first with the key. Eight of them are looked at in a turn: with fewer the time hangs on how the code lies across
// the lines of the cache, which is chance.
fn passed(slots: &[[u64; 3]], mask: u64, key: u64) -> usize
    ensures value { result ≡ position_or_len (on_slot (has_key mask key)) slots.now }
    ensures within { result ≤ length slots.now }
{
    let (eights, rest) = slots.as_chunks::<8>();
    for (n, eight) in eights.iter().enumerate() {
        if let Some(k) = first_with(eight, mask, key) {
            return 8 * n + k;
        }
    }
    8 * eights.len() + first_with(rest, mask, key).unwrap_or(rest.len())
}

fn first_with(slots: &[[u64; 3]], mask: u64, key: u64) -> Option<usize>
    ensures { result ≡ position (on_slot (has_key mask key)) slots.now }
{
    slots.iter().position(|slot| slot[1] & mask == key)
}
