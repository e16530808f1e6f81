// A number stored in the bytes of a field.
ghost use Rattle.std.specs.Prelude.{◌≡◌, ◌+◌, ◌-◌, ◌^◌, ◌≤◌, ◌<◌, length, replicate};
ghost use Rattle.std.proofs.lemmas.List.Edits.{sets};
ghost use Rattle.octets.specs.Low.{low};
ghost use Rattle.decimal.specs.Decimal.{lowest};
ghost use Rattle.digits.specs.Field.{shown_in};
ghost use Rattle.plswrite.specs.Stored.{higher, due};

// The digit 0 four times, as a number of four bytes.
const ZEROS: u32 = 808464432;

// The four lowest digits of a number as one number of four bytes, the first digit its lowest byte. The first two digits
// and the last two stand side by side as two numbers below 100, and the tens of both are taken at once: of such a
// number 103 / 1024 are its tens. One of t tens and u ones, times 256 and less 2559 t, is t + 256 u: a byte for each
// digit.
fn spread(x: u32) -> u32
    ensures { result ≡ low (lowest 4 x) }
{
    let four = x % 10000;
    let twos = four / 100 + four % 100 * 65536;
    let tenths = twos * 103 / 1024;
    let tens = tenths / 65536 * 65536 + tenths % 16;
    twos * 256 - tens * 2559 + ZEROS
}

// Stores the four lowest digits of a number, and returns what is left of it. By hand: with `to_le_bytes` and a copy each
// four digits take some five instructions more.
fn put_four(out: &mut [u8], at: usize, x: u32) -> u32
    requires { at + 4 ≤ length out.old }
    ensures bytes { out.new ≡ sets out.old at (lowest 4 x) }
    ensures left { result ≡ higher 4 x }
{
    let word = spread(x);
    out[at + 3] = (word / 16777216) as u8;
    out[at + 2] = (word / 65536 % 256) as u8;
    out[at + 1] = (word / 256 % 256) as u8;
    out[at] = (word % 256) as u8;
    x / 10000
}

// Stores the n lowest digits of a number one by one, the last first, and returns what is left of it.
fn put_each(out: &mut [u8], at: usize, n: usize, x: u32) -> u32
    requires { n ≤ length out.old - at }
    ensures bytes { out.new ≡ sets out.old at (lowest n x) }
    ensures left { result ≡ higher n x }
{
    let mut y = x;
    for i in (0..n).rev() {
        out[at + i] = b'0' + ((y % 10) as u8);
        y /= 10;
    }
    y
}

// Stores the n lowest digits of a number, four at a time while there are four, and returns what is left of it.
fn put_low(out: &mut [u8], at: usize, n: usize, x: u32) -> u32
    requires { n ≤ length out.old - at }
    ensures bytes { out.new ≡ sets out.old at (lowest n x) }
    ensures left { result ≡ higher n x }
{
    let before = n % 4;
    let mut y = x;
    for i in (0..n / 4).rev() {
        y = put_four(out, at + (before + 4 * i), y);
    }
    put_each(out, at, before, y)
}

// Stores the digits of what is left of a number at the end of n places, the last first, two at a time while there are
// two; of 0 there are none. They fit. How many there are is known only when the number is used up, so no range counts.
fn put_rest(out: &mut [u8], at: usize, n: usize, x: u32)
    requires { (n ≤ length out.old - at) × (due x ≤ n) }
    ensures { out.new ≡ sets out.old (at + (n - due x)) (lowest (due x) x) }
{
    let mut i = n;
    let mut y = x;
    while 10 <= y {
        let two = y % 100;
        i -= 1;
        out[at + i] = b'0' + ((two % 10) as u8);
        i -= 1;
        out[at + i] = b'0' + ((two / 10) as u8);
        y /= 100;
    }
    if y == 0 {
        return;
    }
    i -= 1;
    out[at + i] = b'0' + (y as u8);
}

// Stores a number in so many places, with at least so many digits. A number that is not below `full` has a digit for
// each place; a smaller one leaves the first place empty, so that its digits always fit.
#[inline(always)]
pub(crate) fn put_number(out: &mut [u8], at: usize, width: usize, full: u32, least: usize, x: u32)
    requires { (width ≤ length out.old - at) × (full ≡ 10 ^ (width - 1)) × (1 ≤ least) × (least < width) }
    ensures { out.new ≡ sets out.old at (shown_in width least x) }
{
    if full <= x {
        put_low(out, at, width, x);
        return;
    }
    let before = width - least;
    let left = put_low(out, at + before, least, x);
    out[at..at + before].fill(b' ');
    put_rest(out, at, before, left);
}
