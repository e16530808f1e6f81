// Answers one after the other, told by runs of equal ones.
ghost use Rattle.std.specs.Prelude.{◌+◌, ◌<◌, ◌^◌, length};
ghost use Rattle.std.specs.Iterator.{at_most};

use std::fmt;
use std::io::{Result, Write};

// A run of equal answers: its first and its last place, and the answer.
#[derive(Clone, Copy)]
struct Run {
    first: usize,
    last: usize,
    answer: u8,
}

// The places.
impl fmt::Display for Run {
    fn fmt<W: fmt::Write>(&self, f: &mut fmt::Formatter<W>) -> fmt::Result {
        if self.first < self.last {
            write!(f, "{}-{}", self.first, self.last)
        } else {
            write!(f, "{}", self.first)
        }
    }
}

// The runs of answers, from the first on: the answers that are left, and the place of the first of them.
#[derive(Drop)]
struct Runs<'a> {
    left: &'a [u8],
    first: usize,
    ghost fits: { first + length left.now < 2 ^ 64 },
}

fn runs_of(answers: &[u8]) -> Runs<'_> {
    Runs {
        left: answers,
        first: 0,
    }
}

impl<'a> Iterator for Runs<'a> {
    type Item = Run;

    ghost remaining = { λ s. at_most (length s.left.now) };

    fn next(&mut self) -> Option<Run> {
        let run = self.left.chunk_by(u8::eq).next()?;
        let first = self.first;
        let next = first + run.len();
        *self = Runs {
            left: &self.left[run.len()..],
            first: next,
        };
        Some(Run {
            first,
            last: next - 1,
            answer: run[0],
        })
    }
}

// The runs of answer 0.
pub fn tell_taken<W: Write>(out: &mut W, answers: &[u8]) -> Result<()> {
    for run in runs_of(answers).filter(|run| run.answer == 0) {
        write!(out, " {run}")?;
    }
    telling::words(out, b"\n")
}

// Each run, with its answer.
pub fn tell_answers<W: Write>(out: &mut W, answers: &[u8]) -> Result<()> {
    for run in runs_of(answers) {
        write!(out, " {run}:{}", run.answer)?;
    }
    telling::words(out, b"\n")
}
