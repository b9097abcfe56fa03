// A tour of the public calls: three guests share one table, one of them invalidates, a list is judged, and machine code is listed.
#![tactic(auto)]

mod guests;
mod invalidating;
mod judging;
mod sample;
mod slots;
mod told_entry;
mod told_step;
mod walks;

use std::io;
use told_step::{FOUR_PAGES, NO_PAGE_SIZE, TWO_PAGES};

fn main(rt: HostRuntime) -> io::Result<()> {
    // The library has no heap: it works on the table that it is lent.
    let mut table = [0; 48];
    guests::fill(&rt, &mut table)?;
    println!(rt; "1. One table of 16 slots, shared by guests 7, 8 and 9 (these are their VMIDs).")?;
    slots::tell_slots(&rt, &table)?;
    slots::tell_counts(&rt, &table)?;
    println!(rt; "\n2. Guest 7 invalidates, with an operand that names no page size.")?;
    invalidating::invalidate(&rt, &mut table, NO_PAGE_SIZE)?;
    walks::tell_walks(&rt, &table)?;
    println!(rt; "\n3. Guest 7 invalidates two pages.")?;
    invalidating::invalidate(&rt, &mut table, TWO_PAGES)?;
    walks::tell_walks(&rt, &table)?;
    println!(rt; "\n4. A list is judged before anybody runs it.")?;
    judging::tell_target(&rt)?;
    judging::judge_step(&rt, TWO_PAGES)?;
    println!(rt; "\n5. The list is mended, and judged again.")?;
    judging::judge_step(&rt, FOUR_PAGES)?;
    println!(rt; "\n6. The invalidations in a sample of machine code, with their offsets.")?;
    sample::list_sample(&rt)
}
