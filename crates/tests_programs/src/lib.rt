//! Tests of the programs and of requests in rounds as their users have them: of costs, gateways, the response checker and the client
//! schema in memory and on devices that fail at one call each, and of what each round asks.
//!
//! They stand apart because a crate with tests is proved once with them and once without. Each expected answer was worked out by hand.
//! What is parsed is held in a `ManuallyDrop` and not dropped: a test ends with its process.
#![tactic(auto)]

#[cfg(test)]
mod checker_cases;
#[cfg(test)]
mod checker_contract;
#[cfg(test)]
mod checker_verdicts;
#[cfg(test)]
mod client_schema_again;
#[cfg(test)]
mod client_schema_answers;
#[cfg(test)]
mod client_schema_damaged;
#[cfg(test)]
mod client_schema_refused;
#[cfg(test)]
mod client_schema_round_trips;
#[cfg(test)]
mod cost_cases;
#[cfg(test)]
mod devices;
#[cfg(test)]
mod doubled;
#[cfg(test)]
mod gateway_cases;
#[cfg(test)]
mod gateway_remotes;
#[cfg(test)]
mod gateway_scripted;
#[cfg(test)]
mod rounds_cases;
#[cfg(test)]
mod rounds_faults;
#[cfg(test)]
mod rounds_requests;
#[cfg(test)]
mod running;
