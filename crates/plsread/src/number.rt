// A number field read from its bytes. A field has at most nineteen of them, so that what its digits spell fits 64 bits.
ghost use Rattle.std.specs.Prelude.{◌≡◌, ◌≤◌, length};
ghost use Rattle.digits.specs.Field.{blanks};
ghost use Rattle.plsread.specs.Moved.{number_of};

// How many spaces stand at the head.
fn spaces(s: &[u8]) -> usize
    ensures { result ≡ blanks s.now }
{
    s.iter().take_while(|b| **b == b' ').count()
}

// The number that a field spells with at least so many digits; none where its bytes spell none.
pub(crate) fn read_number(s: &[u8], least: usize) -> Option<u64>
    requires { length s.now ≤ 19 }
    ensures { result ≡ number_of least s.now }
{
    let from = spaces(s);
    let mut x: u64 = 0;
    // By place: with `for digit in &s[from..]` reading a T took some ten instructions more.
    for i in from..s.len() {
        if !s[i].is_ascii_digit() {
            return None;
        }
        x = x * 10 + u64::from(s[i] - b'0');
    }
    if s.len() - from < least {
        None
    } else {
        Some(x)
    }
}
