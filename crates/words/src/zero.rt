// Testing bytes for zero.
ghost use Rattle.std.specs.Prelude.{◌≡◌};
ghost use Rattle.words.specs.Numbers.{zeros};

// Whether every byte is zero: the largest one is. No test stands in the loop, so that a step looks at sixteen bytes.
pub fn are_zeros(bytes: &[u8]) -> bool
    ensures { result ≡ zeros bytes.now }
{
    let mut largest: u8 = 0;
    for i in 0..bytes.len() {
        largest = largest.max(bytes[i]);
    }
    largest == 0
}
