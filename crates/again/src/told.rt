// A record's fields by name and value.
use records::{Record, Sale};
use std::io::{Result, Write};

// Every field of a record, by its name.
pub fn tell<W: Write>(out: &mut W, r: Record) -> Result<()> {
    head(out, r)?;
    place(out, r)?;
    sale(out, r.sale, "")?;
    sale(out, r.new, "new ")?;
    day(out, r)
}

fn head<W: Write>(out: &mut W, r: Record) -> Result<()> {
    telling::words(out, b"\ntype ")?;
    telling::letter(out, r.letter)?;
    write!(out, " time {} event ", r.time)?;
    telling::letter(out, r.event)
}

fn place<W: Write>(out: &mut W, r: Record) -> Result<()> {
    telling::words(out, b"\ncentre ")?;
    telling::letter(out, r.centre)?;
    telling::words(out, b" symbol ")?;
    telling::text(out, &r.symbol)?;
    telling::words(out, b" class ")?;
    telling::letter(out, r.class)
}

// A sale, its names after a mark that tells the new one from the original.
fn sale<W: Write>(out: &mut W, s: Sale, mark: &str) -> Result<()> {
    write!(out, "\n{mark}control ")?;
    telling::text(out, &s.control)?;
    write!(
        out,
        " {mark}price {} {mark}size {} {mark}condition ",
        s.price, s.size
    )?;
    telling::text(out, &s.condition)
}

fn day<W: Write>(out: &mut W, r: Record) -> Result<()> {
    writeln!(
        out,
        "\nhigh {} low {} close {} consolidated {}",
        r.high, r.low, r.close, r.consolidated
    )
}
