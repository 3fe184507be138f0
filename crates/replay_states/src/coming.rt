// What holds of every state that a replay can come to: a state that breaks one of these rules is refused.
ghost use Rattle.std.specs.Prelude.{◌≡◌, cond, ◌+◌, ◌≤◌, eqb, ltb};
ghost use Rattle.crossing.specs.Registration.{registration_of};
ghost use Rattle.crossing.specs.Record.{reading_of};
ghost use Rattle.trace.specs.declared.report.Report.TheVariants.{Agreed, Differs, Malformed};
ghost use Rattle.trace.specs.Came.{registration_came, reading_came, waits_in, report_came};
ghost use Rattle.replay_states.specs.States.{report_of, is_report, held_came, is_state, judged_by};
ghost use Rattle.replay_states.specs.Claims.States.{StatesExactly};

use crate::state::{FlatReplay, FlatReport};
use crossing::{FlatReading, FlatRegistration};
use dump::COPY_SIZE;

fn is_report(flat: FlatReport) -> bool
    ensures { result ≡ is_report flat }
{
    if flat.verdict == 1 {
        return true;
    }
    flat.verdict <= 2 && flat.offset == 0
}

// A call is two records, and the 32 that waits is one.
fn agreed_came(calls: u64, records: u64, waits: u64, least: u64) -> bool
    requires { (records ≤ 4_294_967_295) × (waits ≤ 1) }
    ensures { result ≡ report_came (Agreed calls) records waits least }
{
    if calls < least {
        return false;
    }
    if records < calls {
        return false;
    }
    calls + calls + waits <= records
}

// A difference lies before the end of a body, and nothing waits behind it.
fn difference_came(call: u64, offset: u32, records: u64, waits: u64, least: u64) -> bool
    requires { records ≤ 4_294_967_295 }
    ensures { result ≡ report_came (Differs call offset) records waits least }
{
    if waits != 0 {
        return false;
    }
    if call < 1 {
        return false;
    }
    if call < least {
        return false;
    }
    if records < call {
        return false;
    }
    if records < call + call {
        return false;
    }
    offset <= 4099
}

// A malformed record is the one behind those taken, or the 32 that waits.
fn fault_came(number: u64, records: u64, waits: u64, least: u64) -> bool
    requires { (records ≤ 4_294_967_295) × ((waits ≤ 1) × (least ≤ 2)) }
    ensures { result ≡ report_came (Malformed number) records waits least }
{
    if records + 1 - waits != number {
        return false;
    }
    least + least + waits <= records
}

fn report_came(flat: FlatReport, records: u64, waits: u64, least: u64) -> bool
    requires { (records ≤ 4_294_967_295) × ((waits ≤ 1) × (least ≤ 2)) }
    ensures { result ≡ report_came (report_of flat) records waits least }
{
    if flat.verdict == 0 {
        return agreed_came(flat.number, records, waits, least);
    }
    if flat.verdict == 1 {
        return difference_came(flat.number, flat.offset, records, waits, least);
    }
    fault_came(flat.number, records, waits, least)
}

fn registration_came(flat: FlatRegistration) -> bool
    ensures { result ≡ registration_came (registration_of flat) }
{
    let copy = flat.copy;
    let length = flat.length;
    if flat.phase == 0 {
        return length == 0 && words::are_zeros(&copy);
    }
    if flat.phase != 1 {
        return false;
    }
    if COPY_SIZE < length {
        return false;
    }
    dump::is_structure(&copy[..length]) && words::are_zeros(&copy[length..])
}

fn reading_came(edition: u32, flat: FlatReading) -> bool
    ensures { result ≡ reading_came (record { 0 = edition }) (reading_of flat) }
{
    if 69_905 < flat.number {
        return false;
    }
    if 1 < flat.number {
        return index_calls::is_askable(flat.flag, flat.item_type) && flat.edition == edition;
    }
    if flat.flag != 0 {
        return false;
    }
    if flat.item_type != 0 {
        return false;
    }
    flat.number == 1 && flat.edition == 0
}

// How many calls it took at least, for a phase and the number of a reading record.
fn calls_for(phase: u32, number: u32) -> u64
    ensures { result ≡ cond (eqb phase 1) 1 0 + cond (ltb 1 number) 1 0 }
{
    u64::from(phase == 1) + u64::from(1 < number)
}

// How many records wait: one or none.
pub fn waits_in(waiting: u32) -> u64
    ensures { result ≡ waits_in waiting }
{
    u64::from(waiting != 0)
}

// Held bytes make no record yet, and nothing is held once a replay has stopped.
fn held_came(verdict: u32, held: usize) -> bool
    ensures { result ≡ held_came verdict held }
{
    if held == 0 {
        return true;
    }
    verdict == 0 && held <= 4103
}

// Whether a state keeps every rule.
pub fn is_state(flat: FlatReplay) -> bool
    ensures value { result ≡ is_state flat }
    ensures claims { StatesExactly }
{
    let report = flat.report;
    let registration = flat.registration;
    let reading = flat.reading;
    if !is_report(report) {
        return false;
    }
    if 4_294_967_295 < flat.records {
        return false;
    }
    if 4101 < flat.waiting {
        return false;
    }
    let least = calls_for(registration.phase, reading.number);
    if !report_came(report, flat.records, waits_in(flat.waiting), least) {
        return false;
    }
    if !registration_came(registration) {
        return false;
    }
    if !reading_came(flat.edition, reading) {
        return false;
    }
    held_came(report.verdict, flat.held)
}

// The number that a burst is refused with, or 0. Out of line, so that its copies take stack only while it runs.
#[inline(never)]
pub fn judge(held: &[u8], room: usize, flat: FlatReplay) -> u32
    ensures value { result ≡ judged_by held.now room flat }
    ensures claims { StatesExactly }
{
    if held.len() < 4104 {
        return 15;
    }
    if room < 4100 {
        return 15;
    }
    if !is_state(flat) {
        return 14;
    }
    let n = flat.held;
    if replay::ripe_at(&held[..n], 0) != 0 {
        return 14;
    }
    0
}
