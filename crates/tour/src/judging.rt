// A list of one step, judged against four pages of guest 7.
use crate::guests::{company, state};
use crate::told_entry::ToldEntry;
use crate::told_step::{ToldStep, WORD};
use machine::{Objection, Target};
use std::io;

pub fn tell_target(rt: &impl Print) -> io::Result<()> {
    let target = target();
    println!(rt;
        "to clear: all of guest {} from {:#X} to {:#X}",
        target.company.vmid, target.first, target.last
    )
}

// Every ASID and every level, on the one processor.
fn target() -> Target {
    Target {
        company: company(7),
        wide: false,
        granule: 1,
        asid: None,
        leaves: false,
        processors: 1,
        first: 0x40000000,
        last: 0x40003FFF,
    }
}

pub fn judge_step(rt: &impl Print, operand: u64) -> io::Result<()> {
    println!(rt; "step 0: {}", ToldStep(operand))?;
    let Err(objection) = calls::judge(state(7), target(), &[WORD, operand, 0]) else {
        return println!(rt; "accepted, answer 0");
    };
    print!(rt; "refused, answer {}", objection.number())?;
    match objection {
        Objection::BadShape | Objection::BadState | Objection::BadTarget => println!(rt),
        Objection::Refused(step) | Objection::Outside(step) => println!(rt; ", at step {step}"),
        Objection::Gap(entry) => {
            println!(rt;
                ": a gap, where this entry would survive:\n{}",
                ToldEntry(entry)
            )
        }
    }
}
