// A symbol without its padding.
ghost use Rattle.std.specs.Prelude.{◌≡◌, ◌≤◌, length};
ghost use Rattle.print.specs.Texts.{symbol_text};
ghost use Rattle.print.specs.Put.{Put};

use octets::run::paste;

// How many bytes are left when the spaces at the end are left out. By place: with `rposition` it stays open that the
// result is this length.
fn unpadded(s: &[u8]) -> usize
    ensures { result ≡ length (symbol_text s.now) }
{
    for k in (0..s.len()).rev() {
        if s[k] != b' ' {
            return k + 1;
        }
    }
    0
}

pub(crate) fn put_symbol(out: &mut [u8], at: usize, symbol: [u8; 8]) -> usize
    requires { at ≤ 500 }
    ensures { Put 8 out.old at (symbol_text symbol) out.new result }
{
    let k = unpadded(&symbol);
    paste(out, at, &symbol[..k]);
    at + k
}
