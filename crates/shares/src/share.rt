// The share used, as two whole numbers in lowest terms.
ghost use Rattle.std.specs.Prelude.{◌≡◌};
ghost use Rattle.shares.specs.Share.{divisor, share_of};
ghost use Rattle.shares.specs.Claims.Share.{ShareClaims};

// Part over whole, in lowest terms.
#[repr(C)]
#[derive(Clone, Copy)]
pub struct Share {
    pub part: u64,
    pub whole: u64,
}

// The greatest number that divides both.
fn divisor_of(a: u64, b: u64) -> u64
    ensures { result ≡ divisor a b }
{
    let mut x = a;
    let mut y = b;
    while y != 0 {
        let rest = x % y;
        x = y;
        y = rest;
    }
    x
}

// In lowest terms; 0 over 1 where nothing is available.
pub fn share_of(used: u64, available: u64) -> Share
    ensures value { result ≡ share_of used available }
    ensures claims { ShareClaims }
{
    if available == 0 {
        return Share { part: 0, whole: 1 };
    }
    let by = divisor_of(used, available);
    Share {
        part: used / by,
        whole: available / by,
    }
}
