// Intakes over the C boundary: journals that arrive in bursts.
ghost use Rattle.std.specs.Prelude.{◌≡◌, length};
ghost use Rattle.intake.specs.Bursts.{start_of};
ghost use Rattle.draugsten_tallies.specs.Flat.{tallied_from};
ghost use Rattle.draugsten_tallies.specs.Intakes.{fault_from, flat_intake, intake_from, state_number, flat_end, FlatBursts, end_answer};
ghost use Rattle.draugsten_tallies.specs.Inner.Terms.{record_for, unready_number, ready_number};
ghost use Rattle.draugsten_tallies.specs.Promises.{IntakePromise};

use crate::flat::FlatTallied;
use crate::keeping::outcome_number;
use intake::{Ending, Intake, Place};
use tallies::Refusal;

// No record is longer than the store that has to hold it.
const STORE_SIZE: usize = 32_808;

// Where an intake stands between bursts: its journal's use and tallies, the number of the record that it is inside or comes to, how many bytes of a
// record its store holds, and the fault that it met, 50 malformed or 51 no room, 0 where it met none.
#[repr(C)]
#[derive(Clone, Copy)]
pub struct FlatIntake {
    pub journal: FlatTallied,
    pub number: u64,
    pub held: usize,
    pub fault: u32,
}

// What a burst answers: 0 or the number of a refusal, the number of the record that was refused, and where the intake stands now.
#[repr(C)]
#[derive(Clone, Copy)]
pub struct FlatBurst {
    pub number: u32,
    pub in_record: u64,
    pub intake: FlatIntake,
}

// What an end answers: 0, or the number of a refusal and the number of the record.
#[repr(C)]
#[derive(Clone, Copy)]
pub struct FlatEnd {
    pub number: u32,
    pub in_record: u64,
}

// A number that is none of a fault is taken for one that no stream has.
// Kept: no From, since neither u32 nor Option is of this crate.
fn fault_from(number: u32) -> Option<Refusal>
    ensures { result ≡ fault_from number }
{
    match number {
        0 => None,
        50 => Some(Refusal::Malformed),
        51 => Some(Refusal::NoRoom),
        _ => Some(Refusal::Unfit),
    }
}

impl From<FlatIntake> for Intake {
    ghost from_gives = { λ f i. i ≡ intake_from f };

    fn from(f: FlatIntake) -> Intake {
        Intake {
            place: Place {
                journal: f.journal.into(),
                number: f.number,
                fault: fault_from(f.fault),
            },
            held: f.held,
        }
    }
}

impl From<Intake> for FlatIntake {
    ghost from_gives = { λ i f. f ≡ flat_intake i };

    fn from(i: Intake) -> FlatIntake {
        FlatIntake {
            journal: i.place.journal.into(),
            number: i.place.number,
            held: i.held,
            fault: outcome_number(i.place.fault),
        }
    }
}

// Why a burst or an end does nothing: the store is too small, or the state is one that no start or burst leaves.
#[derive(Clone, Copy, PartialEq, Eq)]
enum Unready {
    Small,
    Unfit,
}

impl From<Unready> for u32 {
    ghost from_gives = { λ u n. n ≡ unready_number u };

    fn from(unready: Unready) -> u32 {
        match unready {
            Unready::Small => 55,
            Unready::Unfit => 54,
        }
    }
}

// Whether an intake can go on. A store that is too small is told before a state that does not fit.
#[tactic(auto, unfolding(crate::specs::Intakes::state_number))]
fn check_state(store: &[u8], size: usize, from: Intake) -> Result<(), Unready>
    ensures { ready_number result ≡ state_number store.now size from }
{
    if store.len() < STORE_SIZE {
        return Err(Unready::Small);
    }
    if !intake::is_ready(store, size, from) {
        return Err(Unready::Unfit);
    }
    Ok(())
}

// The number of the record at fault, 0 where no fault was met.
fn record_for(place: Place) -> u64
    ensures { result ≡ record_for place }
{
    match place.fault {
        None => 0,
        Some(_) => place.number,
    }
}

impl From<Ending> for FlatEnd {
    ghost from_gives = { λ e f. f ≡ flat_end e };

    fn from(ending: Ending) -> FlatEnd {
        match ending {
            Ending::Nothing => FlatEnd {
                number: 0,
                in_record: 0,
            },
            Ending::Unfinished(n) => FlatEnd {
                number: 53,
                in_record: n,
            },
            Ending::Malformed(n) => FlatEnd {
                number: 50,
                in_record: n,
            },
            Ending::NoRoom(n) => FlatEnd {
                number: 51,
                in_record: n,
            },
            Ending::Unfit(_) => FlatEnd {
                number: 54,
                in_record: 0,
            },
        }
    }
}

// An intake over a journal as it is: nothing held, number 1, no fault.
#[unsafe(no_mangle)]
pub extern "C" fn draugsten_intake_start(journal: FlatTallied) -> FlatIntake
    ensures value { result ≡ flat_intake (start_of (tallied_from journal)) }
    ensures promise { IntakePromise }
{
    intake::start(journal.into()).into()
}

// One burst, which may break anywhere.
#[unsafe(no_mangle)]
pub extern "C" fn draugsten_intake_burst(
    buffer: &mut [u8],
    store: &mut [u8],
    intake: FlatIntake,
    bytes: &[u8],
) -> FlatBurst
    ensures flat_bursts { FlatBursts buffer.old store.old intake bytes.now buffer.new store.new result }
    ensures promise { IntakePromise }
{
    let from = Intake::from(intake);
    if let Err(unready) = check_state(&*store, buffer.len(), from) {
        return FlatBurst {
            number: unready.into(),
            in_record: 0,
            intake,
        };
    }
    let next = intake::burst(buffer, store, from, bytes);
    let place = next.place;
    FlatBurst {
        number: outcome_number(place.fault),
        in_record: record_for(place),
        intake: next.into(),
    }
}

// What an end says. It changes nothing: a later burst goes on where the record stopped.
#[unsafe(no_mangle)]
pub extern "C" fn draugsten_intake_end(buffer: &[u8], store: &[u8], intake: FlatIntake) -> FlatEnd
    ensures value { result ≡ end_answer (length buffer.now) store.now intake }
    ensures promise { IntakePromise }
{
    let from = Intake::from(intake);
    if let Err(unready) = check_state(store, buffer.len(), from) {
        return FlatEnd {
            number: unready.into(),
            in_record: 0,
        };
    }
    intake::end(from).into()
}
