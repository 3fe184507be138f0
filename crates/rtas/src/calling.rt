// A call through the argument buffer.
ghost use Rattle.std.specs.Prelude.{◌≡◌, ◌+◌, ◌≤◌, length};
ghost use Rattle.calls.specs.Buffer.{number_for, asks, request_of, found, leaves, call_of};
ghost use Rattle.rtas.specs.Inner.Working.{Indexes, Worked};
ghost use Rattle.calls.specs.Claims.Calls.{CallClaims};

use crate::dump_call::configure_kernel_dump;
use crate::properties_call::update_properties;
use crate::work::Work;
use calls::{Number, ReadingRecord, Request, Status, is_given};
use dump::Registration;
use inventory::{Edition, StartingNumber};
use node_calls::update_nodes;

// What a call answers: its number, and the registration afterwards.
#[derive(Clone, Copy)]
pub struct Answer {
    pub number: Number,
    pub registration: Registration,
}

// What a step gives: the call's answer, and the reading record afterwards.
#[derive(Clone, Copy)]
pub struct Stepped {
    pub answer: Answer,
    pub reading: ReadingRecord,
}

// What get-indices gives: its status, and the reading record afterwards.
#[derive(Clone, Copy)]
struct Indexed {
    status: Status,
    reading: ReadingRecord,
}

// The number of a call, by the head of its argument buffer.
pub fn number_for(args: &[u8]) -> Number
    ensures { result ≡ number_for args.now }
{
    if args.len() < 12 {
        return Number::Short;
    }
    let inputs = words::read_be32(args, 4);
    let outputs = words::read_be32(args, 8);
    if 16 < inputs {
        return Number::TooMany;
    }
    if 16 < outputs {
        return Number::TooMany;
    }
    if args.len() < 12 + 4 * (inputs as usize + outputs as usize) {
        return Number::Short;
    }
    if outputs == 0 {
        return Number::NoOutputs;
    }
    Number::Given
}

// Whether a buffer has a call's token and counts.
fn asks_for(args: &[u8], token: u32, inputs: u32, outputs: u32) -> bool
    requires { 12 ≤ length args.now }
    ensures { result ≡ asks token inputs outputs args.now }
{
    let t = words::read_be32(args, 0);
    let i = words::read_be32(args, 4);
    let o = words::read_be32(args, 8);
    t == token && (i == inputs && o == outputs)
}

// What get-indices is asked for by its five inputs.
fn request_of(args: &[u8]) -> Request
    requires { 32 ≤ length args.now }
    ensures { result ≡ request_of args.now }
{
    Request {
        flag: words::read_be32(args, 12),
        item_type: words::read_be32(args, 16),
        address: words::read_be32(args, 20),
        size: words::read_be32(args, 24),
        number: StartingNumber::read(args, 28),
    }
}

// get-indices by its argument buffer: an answer stores the Next Starting Number, its second output.
fn list_indices(
    args: &mut [u8],
    memory: &mut [u8],
    inventory: &[u8],
    edition: Edition,
    reading: ReadingRecord,
) -> Indexed
    requires { 40 ≤ length args.old }
    ensures { Indexes memory.old inventory.now edition reading args.old result.status result.reading args.new
        memory.new }
{
    let request = request_of(&*args);
    let listed = index_calls::get_indices(memory, inventory, edition, reading, request);
    let status = listed.status;
    let next = listed.next;
    let reading = index_calls::record_after(status, request, next, edition, reading);
    if u32::from(status) <= 1 {
        next.store(args, 36);
    }
    Indexed { status, reading }
}

// The work of a call whose number is 0, and its outputs after the status. Every token is found here. In line, which spares copies on the stack.
#[inline(always)]
fn dispatch(
    args: &mut [u8],
    memory: &mut [u8],
    journal: &[u8],
    inventory: &[u8],
    edition: Edition,
    registration: Registration,
    reading: ReadingRecord,
) -> Work
    requires { number_for args.old ≡ Number.Given }
    ensures { Worked (found args.old memory.old journal.now inventory.now edition registration reading)
        result.status result.registration result.reading args.new memory.new }
{
    if asks_for(&*args, 1, 2, 1) {
        let address = words::read_be32(args, 12);
        let scope = words::read_be32(args, 16);
        let status = update_nodes(memory, journal, address, scope);
        return Work {
            status,
            registration,
            reading,
        };
    }
    if asks_for(&*args, 2, 5, 2) {
        let indexed = list_indices(args, memory, inventory, edition, reading);
        let status = indexed.status;
        let reading = indexed.reading;
        return Work {
            status,
            registration,
            reading,
        };
    }
    if asks_for(&*args, 3, 3, 1) {
        let command = words::read_be32(args, 12);
        let address = words::read_be32(args, 16);
        let len = words::read_be32(args, 20);
        let configured = configure_kernel_dump(&*memory, registration, command, address, len);
        return Work {
            status: configured.status,
            registration: configured.registration,
            reading,
        };
    }
    if asks_for(&*args, 4, 2, 1) {
        let address = words::read_be32(args, 12);
        let scope = words::read_be32(args, 16);
        let status = update_properties(memory, journal, address, scope);
        return Work {
            status,
            registration,
            reading,
        };
    }
    Work {
        status: Status::Parameter,
        registration,
        reading,
    }
}

// One call by value: any argument buffer, memory, journal, inventory and edition, registration and reading record.
pub fn call_step(
    args: &mut [u8],
    memory: &mut [u8],
    journal: &[u8],
    inventory: &[u8],
    edition: Edition,
    registration: Registration,
    reading: ReadingRecord,
) -> Stepped
    ensures reading_after { leaves result.answer.number args.new memory.new result.answer.registration result.reading ≡ call_of
        (found args.old memory.old journal.now inventory.now edition registration reading) }
    ensures claims { CallClaims }
{
    let number = number_for(&*args);
    if !is_given(number) {
        return Stepped {
            answer: Answer {
                number,
                registration,
            },
            reading,
        };
    }
    let inputs = words::read_be32(args, 4) as usize;
    let work = dispatch(
        args,
        memory,
        journal,
        inventory,
        edition,
        registration,
        reading,
    );
    words::store_be32(args, 12 + 4 * inputs, u32::from(work.status));
    Stepped {
        answer: Answer {
            number,
            registration: work.registration,
        },
        reading: work.reading,
    }
}

// One call with the reading record changed in place: any argument buffer, memory, journal, inventory and edition, registration and record.
pub fn call(
    args: &mut [u8],
    memory: &mut [u8],
    journal: &[u8],
    inventory: &[u8],
    edition: Edition,
    registration: Registration,
    reading: &mut ReadingRecord,
) -> Answer
    ensures reading_after { leaves result.number args.new memory.new result.registration reading.new ≡ call_of
        (found args.old memory.old journal.now inventory.now edition registration reading.old) }
    ensures claims { CallClaims }
{
    let stepped = call_step(
        args,
        memory,
        journal,
        inventory,
        edition,
        registration,
        *reading,
    );
    *reading = stepped.reading;
    stepped.answer
}
