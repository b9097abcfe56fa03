// What is counted of a call: inputs, answers by number, and differences.
use crate::numbered::Numbered;
use inputs::draw;
use std::fmt;

// One input: the proved room's answer number, and whether the second model agrees in everything.
// The number stays a number: the summary tells answers by it, for calls whose answers are of different types.
#[derive(Clone, Copy)]
pub struct Seen {
    pub number: u8,
    pub same: bool,
}

impl Seen {
    pub fn of<A: Numbered + PartialEq + Copy>(ours: A, theirs: A) -> Seen {
        Seen {
            number: ours.number(),
            same: ours == theirs,
        }
    }

    // The same, where something else has to agree too.
    pub fn and(self, same: bool) -> Seen {
        Seen {
            number: self.number,
            same: self.same && same,
        }
    }
}

// `first` is the place of the first input that differs, counted from 0.
#[derive(Clone, Copy)]
pub struct Tally {
    pub inputs: u64,
    answers: [u64; 15],
    pub differences: u64,
    first: Option<u64>,
}

impl Tally {
    pub const NONE: Tally = Tally {
        inputs: 0,
        answers: [0; 15],
        differences: 0,
        first: None,
    };

    // What is seen of so many inputs, each made from its place.
    pub fn of<F: Fn(u64) -> Seen>(inputs: u64, seen: F) -> Tally
        requires { F.IsAlwaysCallable seen }
    {
        let mut tally = Tally::NONE;
        for n in 0..inputs {
            tally.count(seen(n));
        }
        tally
    }

    // The same, of inputs that are made from the numbers of a seed.
    pub fn drawn<F: Fn(u64) -> Seen>(inputs: u64, seed: u64, seen: F) -> Tally
        requires { F.IsAlwaysCallable seen }
    {
        Tally::of(inputs, |n| seen(draw(seed, n)))
    }

    pub fn count(&mut self, seen: Seen) {
        if let Some(answers) = self.answers.get_mut(usize::from(seen.number)) {
            *answers = answers.wrapping_add(1);
        }
        if !seen.same {
            self.first = self.first.or(Some(self.inputs));
            self.differences = self.differences.wrapping_add(1);
        }
        self.inputs = self.inputs.wrapping_add(1);
    }

    // Inputs and differences of both.
    pub fn plus(self, other: Tally) -> Tally {
        Tally {
            inputs: self.inputs.wrapping_add(other.inputs),
            differences: self.differences.wrapping_add(other.differences),
            ..Tally::NONE
        }
    }
}

// The inputs, how many got each answer, and how many differ; and where the first of these stands.
impl fmt::Display for Tally {
    fn fmt<W: fmt::Write>(&self, f: &mut fmt::Formatter<W>) -> fmt::Result {
        write!(f, "{} inputs;", self.inputs)?;
        for (number, answers) in self.answers.iter().enumerate() {
            if *answers > 0 {
                write!(f, " {number} x {answers}")?;
            }
        }
        write!(f, "; {} differences", self.differences)?;
        if let Some(first) = self.first {
            write!(f, ", the first at input {first}")?;
        }
        Ok(())
    }
}
