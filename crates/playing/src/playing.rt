// What a record does to a replay.
ghost use Rattle.std.specs.Prelude.{◌≡◌, cond, not, ◌+◌, ◌-◌, ◌≤◌, length, Some, is_some};
ghost use Rattle.std.proofs.lemmas.List.Edits.{sets};
ghost use Rattle.trace.specs.Trace.{body_of, good_frame};
ghost use Rattle.trace.specs.Playing.{is_over, agreed};
ghost use Rattle.playing.specs.Played.{platform_of};
ghost use Rattle.playing.specs.Claims.Played.{Steady};
ghost use Rattle.playing.specs.Inner.Terms.{played_on, kept_by, faulted_by, set_by, memory_set, left_by, called_by, Playable, Plays};

use crate::comparing::compare;
use calls::ReadingRecord;
use dump::Registration;
use inventory::Edition;
use trace::Report;

// How many records were taken, what the replay came to so far, the size of the body of the 32 that waits, the edition, and what the calls left.
#[derive(Clone, Copy)]
pub struct Playing {
    pub records: u64,
    pub report: Report,
    pub waiting: Option<usize>,
    pub edition: Edition,
    pub registration: Registration,
    pub reading: ReadingRecord,
}

// Whether nothing has stopped the replay.
pub fn is_going(report: Report) -> bool
    ensures { result ≡ not (is_over report) }
{
    matches!(report, Report::Agreed(_))
}

fn calls_in(report: Report) -> u32
    ensures { result ≡ agreed report }
{
    match report {
        Report::Agreed(calls) => calls,
        _ => 0,
    }
}

// The number of the record at fault: of a 32 that waits its own, otherwise that of the record behind those taken.
fn blamed(records: u64, waiting: Option<usize>) -> u64
    requires { records ≤ 4_294_967_295 }
    ensures { result ≡ cond (is_some waiting) records (records + 1) }
{
    match waiting {
        Some(_) => records,
        None => records + 1,
    }
}

// A malformed record stops the replay.
fn fault(from: Playing) -> Playing
    requires { from.records ≤ 4_294_967_295 }
    ensures { result ≡ faulted_by from }
{
    let registration = from.registration;
    let reading = from.reading;
    let edition = from.edition;
    Playing {
        records: from.records,
        report: Report::Malformed(blamed(from.records, from.waiting)),
        waiting: from.waiting,
        edition,
        registration,
        reading,
    }
}

// A 32: its body waits at the front of the lent buffer. In line, which spares copies on the stack.
#[inline(always)]
fn keep(args: &mut [u8], from: Playing, item: &[u8]) -> Playing
    requires { (from.records ≤ 0xffff_fffe) × (4 ≤ length item.now) × (length item.now ≤ length args.old + 4) }
    ensures value { result ≡ kept_by from (length item.now - 4) }
    ensures args_after { args.new ≡ sets args.old 0 (body_of item.now) }
{
    let registration = from.registration;
    let reading = from.reading;
    let edition = from.edition;
    let report = from.report;
    let size = item.len() - 4;
    words::store(args, 0, &item[4..]);
    Playing {
        records: from.records + 1,
        report,
        waiting: Some(size),
        edition,
        registration,
        reading,
    }
}

// A 34: its bytes go to memory, all of them or none.
fn set_memory(memory: &mut [u8], from: Playing, item: &[u8]) -> Playing
    requires { (from.records ≤ 0xffff_fffe) × (4 ≤ length item.now) × (length item.now ≤ 4104) }
    ensures value { result ≡ set_by memory.old from (body_of item.now) }
    ensures memory_after { memory.new ≡ memory_set memory.old (body_of item.now) }
{
    if item.len() < 9 {
        return fault(from);
    }
    let at = words::read_le32(item, 4) as usize;
    let size = item.len() - 8;
    if memory.len() < at + size {
        return fault(from);
    }
    words::store(memory, at, &item[8..]);
    let report = from.report;
    let registration = from.registration;
    let reading = from.reading;
    play_on(from, report, registration, reading)
}

// One record more, with a report, and with what a call left.
fn play_on(
    from: Playing,
    report: Report,
    registration: Registration,
    reading: ReadingRecord,
) -> Playing
    requires { from.records ≤ 0xffff_fffe }
    ensures { result ≡ played_on from report registration reading }
{
    let edition = from.edition;
    Playing {
        records: from.records + 1,
        report,
        waiting: None,
        edition,
        registration,
        reading,
    }
}

// A 33: the call of the 32 that waits is made, and its buffer compared with the recorded one.
fn run_call(
    args: &mut [u8],
    memory: &mut [u8],
    journal: &[u8],
    inventory: &[u8],
    from: Playing,
    size: usize,
    item: &[u8],
) -> Playing
    requires { Steady args.old from × (from.waiting ≡ Some size) × (from.records ≤ 0xffff_fffe) × (4 ≤ length item.now) × (length item.now ≤ 4104) }
    ensures value { result ≡ called_by (left_by (platform_of journal.now inventory.now from) memory.old args.old from size)
        from (body_of item.now) }
    ensures memory_after { memory.new ≡ (left_by (platform_of journal.now inventory.now from) memory.old args.old
        from size).memory }
    ensures args_after { args.new ≡ sets args.old 0
        (left_by (platform_of journal.now inventory.now from) memory.old args.old from size).args }
{
    let edition = from.edition;
    let registration = from.registration;
    let reading = from.reading;
    let report = from.report;
    let stepped = rtas::call_step(
        &mut args[..size],
        memory,
        journal,
        inventory,
        edition,
        registration,
        reading,
    );
    let next = compare(calls_in(report), &item[4..], &args[..size]);
    play_on(from, next, stepped.answer.registration, stepped.reading)
}

// Whether length and kind can be those of a good record.
pub fn is_good_frame(length: u16, kind: u16) -> bool
    ensures { result ≡ good_frame length kind }
{
    if length < 2 {
        return false;
    }
    if 4102 < length {
        return false;
    }
    32 <= kind && kind <= 34
}

// One record, whole where its length and kind can be good, else its first four bytes.
pub fn play(
    args: &mut [u8],
    memory: &mut [u8],
    journal: &[u8],
    inventory: &[u8],
    from: Playing,
    item: &[u8],
) -> Playing
    requires { Playable args.old from item.now }
    ensures { Plays (platform_of journal.now inventory.now from) args.old memory.old from
        item.now args.new memory.new result }
{
    let frame = records::read_frame(item, 0);
    if 0xffff_fffe < from.records {
        return fault(from);
    }
    if !is_good_frame(frame.length, frame.kind) {
        return fault(from);
    }
    // Kept: written as one match on what waits and the kind, it took 512 bytes more of the stack, past the limit of the header (tests/stack.c).
    if let Some(size) = from.waiting {
        if frame.kind != 33 {
            return fault(from);
        }
        return run_call(args, memory, journal, inventory, from, size, item);
    }
    if frame.kind == 32 {
        return keep(args, from, item);
    }
    if frame.kind == 34 {
        return set_memory(memory, from, item);
    }
    fault(from)
}
