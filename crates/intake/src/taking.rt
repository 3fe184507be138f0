// One complete record of the stream: it is appended to the journal, or the intake stops at its number.
ghost use Rattle.std.specs.Prelude.{◌≡◌, is_some};
ghost use Rattle.intake.specs.Taking.{taking_of, step};

use tallies::{Refusal, Tallied};

// Where an intake stands between records: the use and the tallies of its journal, the number of the record that it is inside or comes to, and the
// fault that it met, if it met one.
#[derive(Clone, Copy)]
pub struct Place {
    pub journal: Tallied,
    pub number: u64,
    pub fault: Option<Refusal>,
}

// Whether an intake has stopped.
pub fn is_stopped(fault: Option<Refusal>) -> bool
    ensures { result ≡ is_some fault }
{
    match fault {
        None => false,
        Some(_) => true,
    }
}

// A record, or the four bytes that are none. Its number goes on by one, up to 2^64 - 1, unless it is refused.
pub fn take(buffer: &mut [u8], from: Place, bytes: &[u8]) -> Place
    ensures { taking_of buffer.new result ≡ step (taking_of buffer.old from) bytes.now }
{
    if is_stopped(from.fault) {
        return from;
    }
    let kept = tallies::append(buffer, from.journal, bytes);
    match kept.outcome {
        None => Place {
            journal: kept.next,
            number: from.number.saturating_add(1),
            fault: None,
        },
        Some(refusal) => Place {
            journal: kept.next,
            number: from.number,
            fault: Some(refusal),
        },
    }
}
