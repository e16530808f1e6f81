// A row as it is shown, told in a line.
use show::RowShown;
use std::fmt;
use std::io::{Result, Write};

// A figure, or a dash where there is none.
#[derive(Drop)]
struct OrDash<T>(Option<T>);

impl<T: fmt::Display> fmt::Display for OrDash<T> {
    fn fmt<W: fmt::Write>(&self, f: &mut fmt::Formatter<W>) -> fmt::Result {
        match &self.0 {
            None => write!(f, "-"),
            Some(x) => write!(f, "{x}"),
        }
    }
}

// A change, with its sign; one of nothing has none.
#[derive(Clone, Copy)]
struct Change(i64);

impl fmt::Display for Change {
    fn fmt<W: fmt::Write>(&self, f: &mut fmt::Formatter<W>) -> fmt::Result {
        let x = self.0;
        if x == 0 {
            write!(f, "0")
        } else {
            write!(f, "{x:+}")
        }
    }
}

// The symbol in base 16, each figure after what it is called.
pub fn tell<W: Write>(out: &mut W, r: RowShown) -> Result<()> {
    let symbol = u64::from_be_bytes(r.symbol);
    write!(out, "; {symbol:016x} close {}", r.close)?;
    write!(
        out,
        " last {} high {} low {} net {}",
        OrDash(r.last),
        OrDash(r.high),
        OrDash(r.low),
        OrDash(r.net.map(Change))
    )?;
    let agrees = if r.agrees { "yes" } else { "no" };
    writeln!(
        out,
        " volume {} count {} agrees {agrees} reported {}",
        r.volume,
        r.count,
        OrDash(r.reported)
    )
}
