// Forecasts over the C boundary.
ghost use Rattle.std.specs.Prelude.{◌≡◌};
ghost use Rattle.calls.specs.Status.{status_word};
ghost use Rattle.forecast.specs.Forecast.{forecast_of};
ghost use Rattle.draugsten_tallies.specs.Flat.{tallies_from};
ghost use Rattle.draugsten_tallies.specs.Promises.{ForecastPromise};

use crate::flat::FlatTallies;
use node_area::StateVariable;

// What update-nodes would answer: its status as a word, and the state that it would leave.
#[repr(C)]
#[derive(Clone, Copy)]
pub struct FlatForecast {
    pub status: u32,
    pub next: u64,
}

// What a scope and state would answer, from the tallies of a journal alone.
#[unsafe(no_mangle)]
pub extern "C" fn draugsten_forecast(tallies: FlatTallies, scope: u32, state: u32) -> FlatForecast
    ensures status_value { (result.status ≡ status_word (forecast_of (tallies_from tallies) scope state).status) ×
        (result.next ≡ (forecast_of (tallies_from tallies) scope state).next) }
    ensures promise { ForecastPromise }
{
    let told = forecast::forecast_from(tallies.into(), scope, StateVariable(state));
    FlatForecast {
        status: u32::from(told.status),
        next: told.next,
    }
}
