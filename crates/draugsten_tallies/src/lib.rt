// The static library of a journal with its tallies, of forecasts from them, and of journals that arrive in bursts: the exports, nothing else.
#![tactic(auto)]

mod flat;
mod forecasting;
mod intakes;
mod keeping;
