// What the calls are lent: the first words of an array, which is larger than any of them needs.
use crate::numbered::Numbered;
use crate::tally::Seen;

// The first words: all where there are no more.
pub fn first_words(words: &[u64], count: usize) -> &[u64] {
    &words[..count.min(words.len())]
}

// The two models, each on a table of its own. The arrays have to be the same afterwards too, and that with the words
// that are not lent.
pub fn on_tables<const N: usize, A, F, G>(
    table: &mut [u64; N],
    words: usize,
    ours: F,
    theirs: G,
) -> Seen
where
    A: Numbered + PartialEq + Copy,
    F: Fn(&mut [u64]) -> A,
    G: Fn(&mut [u64]) -> A,
    requires ours { F.IsAlwaysCallable ours }
    requires theirs { G.IsAlwaysCallable theirs }
{
    let lent = words.min(N);
    let mut second = *table;
    let seen = Seen::of(ours(&mut table[..lent]), theirs(&mut second[..lent]));
    seen.and(table.as_slice() == second.as_slice())
}
