// What the reader takes in each field of each type: every byte value tried at every byte of its letters and texts,
// its numbers at both ends of their ranges, and every length from 0 to 80.
#![tactic(auto)]

mod lengths;
mod ranges;
mod runs;
mod sets;
mod sound;
mod tried;

use std::io::{Result, Write};
use tried::Tried;

// The last millisecond of the day.
const TIME: u64 = 86399999;

// The feed's highest price, in ten-thousandths.
const PRICE: u64 = 2000000000;

// A size and a volume may be any number of their width.
const SIZE: u64 = u32::MAX as u64;

const VOLUME: u64 = u64::MAX;

fn main(rt: HostRuntime) -> Result<()> {
    let mut out = rt.stdout();
    event(&mut out)?;
    trade(&mut out, sound::trade(b'T'))?;
    trade(&mut out, sound::trade(b'X'))?;
    correction(&mut out)?;
    summary(&mut out)
}

fn event<W: Write>(out: &mut W) -> Result<()> {
    let m = sound::event();
    sets::letter(out, m, b"type", 4)?;
    sets::letter(out, m, b"event", 5)?;
    ranges::number::<u32, W>(out, m, b"time", 0, TIME)?;
    lengths::every(out, m)
}

fn trade<W: Write>(out: &mut W, m: Tried) -> Result<()> {
    original(out, m)?;
    amounts(out, m)?;
    ranges::number::<u64, W>(out, m, b"consolidated", 37, VOLUME)?;
    lengths::every(out, m)
}

fn correction<W: Write>(out: &mut W) -> Result<()> {
    let m = sound::correction();
    original(out, m)?;
    sets::text(out, m, b"new control", 37, 10)?;
    sets::text(out, m, b"new condition", 55, 4)?;
    amounts(out, m)?;
    ranges::number::<u32, W>(out, m, b"new price", 47, PRICE)?;
    ranges::number::<u32, W>(out, m, b"new size", 51, SIZE)?;
    ranges::number::<u64, W>(out, m, b"consolidated", 59, VOLUME)?;
    lengths::every(out, m)
}

fn summary<W: Write>(out: &mut W) -> Result<()> {
    let m = sound::summary();
    sets::letter(out, m, b"type", 4)?;
    sets::text(out, m, b"symbol", 5, 8)?;
    sets::letter(out, m, b"class", 13)?;
    ranges::number::<u32, W>(out, m, b"time", 0, TIME)?;
    ranges::number::<u32, W>(out, m, b"high", 14, PRICE)?;
    ranges::number::<u32, W>(out, m, b"low", 18, PRICE)?;
    ranges::number::<u32, W>(out, m, b"close", 22, PRICE)?;
    ranges::number::<u64, W>(out, m, b"consolidated", 26, VOLUME)?;
    lengths::every(out, m)
}

// The letters and texts that T, X and C have alike.
fn original<W: Write>(out: &mut W, m: Tried) -> Result<()> {
    sets::letter(out, m, b"type", 4)?;
    sets::letter(out, m, b"centre", 5)?;
    sets::text(out, m, b"symbol", 6, 8)?;
    sets::letter(out, m, b"class", 14)?;
    sets::text(out, m, b"control", 15, 10)?;
    sets::text(out, m, b"condition", 33, 4)
}

// The numbers that T, X and C have alike.
fn amounts<W: Write>(out: &mut W, m: Tried) -> Result<()> {
    ranges::number::<u32, W>(out, m, b"time", 0, TIME)?;
    ranges::number::<u32, W>(out, m, b"price", 25, PRICE)?;
    ranges::number::<u32, W>(out, m, b"size", 29, SIZE)
}
