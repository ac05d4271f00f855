// The yearly share of an investment, from the rate of interest and the term.
#![tactic(auto)]

mod apportionment;
mod compounding;

pub use apportionment::share;
