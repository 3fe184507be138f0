// What a scope and state would answer, told from the tallies of a journal alone.
#![tactic(auto)]

mod forecasting;

pub use forecasting::{Forecast, forecast_from};
