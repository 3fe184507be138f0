// Numbers and statuses.
ghost use Rattle.std.specs.Prelude.{◌≡◌};
ghost use Rattle.calls.specs.Status.{is_given, number_of, status_word};
ghost use Rattle.calls.specs.ConfigureDump.{refusal_status};

use dump::Refusal;

// What the head of an argument buffer gives: a status is in the buffer, or why none is.
#[derive(Clone, Copy, PartialEq, Eq)]
pub enum Number {
    Given,
    Short,
    NoOutputs,
    TooMany,
}

#[derive(Clone, Copy, PartialEq, Eq)]
pub enum Status {
    Done,
    Again,
    Malformed,
    Parameter,
    Changed,
    AlreadyRegistered,
    DumpActive,
}

// A call's number as a word.
impl From<Number> for u32 {
    ghost from_gives = { λ number word. word ≡ number_of number };

    fn from(number: Number) -> u32 {
        match number {
            Number::Given => 0,
            Number::Short => 10,
            Number::NoOutputs => 11,
            Number::TooMany => 12,
        }
    }
}

// A status as its word in the argument buffer.
impl From<Status> for u32 {
    ghost from_gives = { λ status word. word ≡ status_word status };

    // Out of line, which spares a call copies on the stack.
    #[inline(never)]
    fn from(status: Status) -> u32 {
        match status {
            Status::Done => 0,
            Status::Again => 1,
            Status::Malformed => 0xffff_ffff,
            Status::Parameter => 0xffff_fffd,
            Status::Changed => 0xffff_fffc,
            Status::AlreadyRegistered => 0xffff_fff7,
            Status::DumpActive => 0xffff_fff6,
        }
    }
}

// The status of a command that is refused.
impl From<Refusal> for Status {
    ghost from_gives = { λ refusal status. status ≡ refusal_status refusal };

    fn from(refusal: Refusal) -> Status {
        match refusal {
            Refusal::Parameter => Status::Parameter,
            Refusal::AlreadyRegistered => Status::AlreadyRegistered,
            Refusal::DumpActive => Status::DumpActive,
        }
    }
}

// Whether a status is in the buffer.
pub fn is_given(number: Number) -> bool
    ensures { result ≡ is_given number }
{
    matches!(number, Number::Given)
}
