// Numbers as a sheet writes them: in decimal, up to a million either way.
ghost use Rattle.std.specs.Prelude.{◌≡◌, ◌≤◌, IfSome};
ghost use Rattle.text.specs.Numbers.{well_begun, magnitude_of, number_of};

// The largest number that a sheet may write.
const LIMIT: u32 = 1000000;

// Whether a word begins as a number may: with no zero before another digit.
fn begun_well(word: &[u8]) -> bool
    ensures { result ≡ well_begun word.now }
{
    match word {
        [] | [b'0', _, ..] => false,
        _ => true,
    }
}

// The number that a word of digits writes. It stops at the first digit that makes the number too large, so that no sum wraps.
// A `for`, since in a `try_fold` the closure would have to require that bound of the sum so far.
#[tactic(auto, using(crate::proofs::Figures::digit_over))]
fn magnitude(word: &[u8]) -> Option<u32>
    ensures small { IfSome result (λ n. n ≤ 1000000) }
    ensures is { result ≡ magnitude_of word.now }
{
    if !begun_well(word) {
        return None;
    }
    let mut n: u32 = 0;
    for b in word {
        if !b.is_ascii_digit() {
            return None;
        }
        n = n * 10 + u32::from(*b - b'0');
        if n > LIMIT {
            return None;
        }
    }
    Some(n)
}

// The number that a word writes, perhaps with a minus; 0 has none.
pub(super) fn number(word: &[u8]) -> Option<i32>
    ensures { result ≡ number_of word.now }
{
    match word {
        [b'-', digits @ ..] => match magnitude(digits)? {
            0 => None,
            n => Some(-(n as i32)),
        },
        _ => magnitude(word).map(|n| n as i32),
    }
}
