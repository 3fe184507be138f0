// get-indices on partition memory.
ghost use Rattle.std.specs.Prelude.{◌≡◌, true, ◌-◌, ◌≤◌, ◌<◌, length};
ghost use Rattle.inventory.specs.Inventory.{well_formed};
ghost use Rattle.inventory.specs.Inner.Scanning.{ResumesAt};
ghost use Rattle.calls.specs.GetIndices.{askable, lendable, entries_for, number_in, list_status, indices_status, indices_memory, number_given};
ghost use Rattle.calls.specs.Inner.Terms.{list_area};

use crate::reading_record::{is_current, is_named};
use calls::{ReadingRecord, Request, Status};
use inventory::{Counted, Edition, StartingNumber, Wanted};

// What a call answers: its status, and the Next Starting Number; for a refused call the number that was asked for.
#[derive(Clone, Copy)]
pub struct Listed {
    pub status: Status,
    pub next: StartingNumber,
}

// Whether a type may be asked for with a flag.
#[tactic(auto, using(std::proofs::lemmas::Bool::Decides::nat_tests), unfolding(calls::specs::GetIndices::askable))]
pub fn is_askable(flag: u32, item_type: u32) -> bool
    ensures { result ≡ askable flag item_type }
{
    flag <= 1 && item_type != 9003 && (flag != 0 || !matches!(item_type, 9001 | 9002))
}

// Whether a size of at least 4 from an address on ends inside memory and below 4 GiB.
#[tactic(auto, using(std::proofs::lemmas::Bool::Decides::nat_tests), unfolding(calls::specs::GetIndices::lendable))]
fn is_lendable(memory: &[u8], address: usize, size: usize) -> bool
    requires { (address < 0x1_0000_0000) × (size < 0x1_0000_0000) }
    ensures { result ≡ lendable memory.now address size }
{
    let end = address + size;
    4 <= size && end <= 0x1_0000_0000 && end <= memory.len()
}

// The flag and type that a request asks for.
fn wanted_by(request: Request) -> Wanted
    ensures { (result.flag ≡ request.flag) × (result.item_type ≡ request.item_type) }
{
    Wanted {
        flag: request.flag,
        item_type: request.item_type,
    }
}

// The answer over a well-formed inventory with so many entries, of which the one due is searched from the place noted.
fn answer_counted(area: &mut [u8], inventory: &[u8], request: Request, counted: Counted) -> Listed
    requires { (4 ≤ length area.old) × (request.size ≡ length area.old) × (well_formed inventory.now ≡ true) ×
        (counted.count ≡ length (entries_for inventory.now request)) ×
        (1 ≤ number_in request → number_in request ≤ counted.count
        → ResumesAt request.flag request.item_type inventory.now (number_in request - 1) counted.due) }
    ensures status_value { (result.status ≡ list_status inventory.now request) ×
        (result.next.0 ≡ number_given (list_status inventory.now request) inventory.now request) }
    ensures area_after { area.new ≡ list_area inventory.now request area.old }
{
    let due = request.number;
    if !due.is_among(counted.count) {
        return refused(request, Status::Parameter);
    }
    let left = due.entries_from(counted.count);
    let wanted = wanted_by(request);
    let handed = indices::write_run(area, inventory, wanted, due, counted.due, left);
    if handed == 0 {
        return refused(request, Status::Parameter);
    }
    if handed < left {
        return Listed {
            status: Status::Again,
            next: due.after(handed),
        };
    }
    Listed {
        status: Status::Done,
        next: StartingNumber::first(),
    }
}

// A call that gives this status and no number of its own.
fn refused(request: Request, status: Status) -> Listed
    ensures { (result.status ≡ status) × (result.next ≡ request.number) }
{
    Listed {
        status,
        next: request.number,
    }
}

// The answer in its area: the inventory is judged first.
fn answer_list(area: &mut [u8], inventory: &[u8], request: Request) -> Listed
    requires { (4 ≤ length area.old) × (request.size ≡ length area.old) }
    ensures status_value { (result.status ≡ list_status inventory.now request) ×
        (result.next.0 ≡ number_given (list_status inventory.now request) inventory.now request) }
    ensures area_after { area.new ≡ list_area inventory.now request area.old }
{
    match inventory::scan(inventory, wanted_by(request), request.number) {
        None => refused(request, Status::Malformed),
        Some(counted) => answer_counted(area, inventory, request, counted),
    }
}

// The call: only the given size from the given address is handed down to be written.
pub fn get_indices(
    memory: &mut [u8],
    inventory: &[u8],
    edition: Edition,
    reading: ReadingRecord,
    request: Request,
) -> Listed
    ensures status_value { (result.status ≡ indices_status memory.old inventory.now edition reading request) ×
        (result.next.0 ≡ number_given (indices_status memory.old inventory.now edition reading request) inventory.now request) }
    ensures memory_after { memory.new ≡ indices_memory memory.old inventory.now edition reading request }
{
    if !is_askable(request.flag, request.item_type) {
        return refused(request, Status::Parameter);
    }
    let at = request.address as usize;
    let size = request.size as usize;
    if !is_lendable(memory, at, size) {
        return refused(request, Status::Parameter);
    }
    let named = is_named(reading, request);
    let current = is_current(reading, edition, request);
    if !named {
        return refused(request, Status::Parameter);
    }
    if !current {
        return refused(request, Status::Changed);
    }
    answer_list(&mut memory[at..at + size], inventory, request)
}
