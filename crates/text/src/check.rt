// The text layer: which bytes may stand where, whatever they say.
ghost use Rattle.std.specs.Prelude.{◌≡◌, ℕ, ◌≤◌, Bool, length};
ghost use Rattle.text.specs.Text.{start, past, bad_byte, bad_spacing, Tests, first_broken, text_verdict};

use faults::{Spot, TextFault};

// The longest text that is read.
pub const MAX_BYTES: usize = 16384;

// Whether a byte may not stand in a text, whatever its neighbours are.
fn bad_byte(_before: u8, byte: u8, _after: u8) -> bool
    ensures { result ≡ bad_byte _before byte _after }
{
    !matches!(byte, b'\n' | b' '..=b'~')
}

// Whether a newline or a space may not stand between its neighbours.
fn bad_spacing(before: u8, byte: u8, after: u8) -> bool
    ensures { result ≡ bad_spacing before byte after }
{
    match byte {
        b'\n' => before == b'\n',
        b' ' => before == b'\n' || before == b' ' || after == b'\n',
        _ => false,
    }
}

// The spot of the byte after `byte`, which stands at `at`.
fn step(at: Spot, byte: u8) -> Spot
    requires { (at.line ≤ 16384) × (at.column ≤ 16384) }
    ensures { result ≡ past at byte }
{
    if byte == b'\n' {
        Spot::new(at.line + 1, 1)
    } else {
        Spot::new(at.line, at.column + 1)
    }
}

// The spot of the first byte that is broken by what stands around it, where a newline stands before and after the text. A loop,
// since no chain has the byte before, the byte after and the spot, which each byte moves.
fn find_broken<F: Fn(u8, u8, u8) -> bool>(text: &[u8], broken: F) -> Option<Spot>
    requires short { length text.now ≤ 16384 }
    requires callable { F.IsAlwaysCallable broken }
    ensures { (bad : ℕ → ℕ → ℕ → Bool) → Tests F.Fn broken bad → result ≡ first_broken bad start 10 text.now }
{
    let mut at = Spot::new(1, 1);
    let mut before = b'\n';
    let mut left = text;
    while let Some((byte, rest)) = left.split_first() {
        let after = rest.first().copied().unwrap_or(b'\n');
        if broken(before, *byte, after) {
            return Some(at);
        }
        at = step(at, *byte);
        before = *byte;
        left = rest;
    }
    None
}

// Whether the bytes are a sheet's text, and the first fault if they are not.
pub fn check_text(text: &[u8]) -> Result<(), TextFault>
    ensures { result ≡ text_verdict text.now }
{
    if text.len() > MAX_BYTES {
        return Err(TextFault::TooLong);
    }
    let [.., b'\n'] = text else {
        return Err(TextFault::NoEnd);
    };
    if let Some(spot) = find_broken(text, bad_byte) {
        return Err(TextFault::BadByte(spot));
    }
    if let Some(spot) = find_broken(text, bad_spacing) {
        return Err(TextFault::Spacing(spot));
    }
    Ok(())
}
