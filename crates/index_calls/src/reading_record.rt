// The reading record: none in progress, its checks, and what a get-indices call makes of it.
ghost use Rattle.std.specs.Prelude.{◌≡◌};
ghost use Rattle.calls.specs.ReadingRecord.{is_named, is_current, record_after};
ghost use Rattle.calls.specs.Claims.Terms.{naming};

use calls::{ReadingRecord, Request, Status};
use inventory::{Edition, StartingNumber};

// The record of a partition without a reading in progress, which it starts with.
pub fn no_reading() -> ReadingRecord
    ensures { result ≡ naming 0 0 1 0 }
{
    ReadingRecord {
        flag: 0,
        item_type: 0,
        number: StartingNumber::first(),
        edition: Edition(0),
    }
}

// Whether a request begins afresh, or has the flag, type and number that the record names.
#[tactic(auto, using(std::proofs::lemmas::Bool::Decides::nat_tests), unfolding(calls::specs::ReadingRecord::is_named, calls::specs::ReadingRecord::begins))]
pub fn is_named(reading: ReadingRecord, request: Request) -> bool
    ensures { result ≡ is_named reading request }
{
    request.number.is_first()
        || (request.flag == reading.flag
            && request.item_type == reading.item_type
            && request.number == reading.number)
}

// Whether a request begins afresh, or the edition is the one that the record names.
#[tactic(auto, using(std::proofs::lemmas::Bool::Decides::nat_tests), unfolding(calls::specs::ReadingRecord::is_current, calls::specs::ReadingRecord::begins))]
pub fn is_current(reading: ReadingRecord, edition: Edition, request: Request) -> bool
    ensures { result ≡ is_current reading edition request }
{
    request.number.is_first() || edition == reading.edition
}

// The record after a get-indices call with this status, request, next number and edition.
#[tactic(auto, unfolding(calls::specs::ReadingRecord::record_after))]
pub fn record_after(
    status: Status,
    request: Request,
    next: StartingNumber,
    edition: Edition,
    reading: ReadingRecord,
) -> ReadingRecord
    ensures { result ≡ record_after status request next.0 edition reading }
{
    match status {
        Status::Done | Status::Changed => no_reading(),
        Status::Again => ReadingRecord {
            flag: request.flag,
            item_type: request.item_type,
            number: next,
            edition,
        },
        Status::Malformed | Status::Parameter => reading,
        Status::AlreadyRegistered | Status::DumpActive => reading,
    }
}
