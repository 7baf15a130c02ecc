//! Operations without spreads (GraphQL October 2021, section 2.8): what stands in their place, and how many selections that
//! makes.

mod expanding;
mod fixtures;
mod written;
