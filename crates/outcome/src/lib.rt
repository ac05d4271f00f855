// The outcome of a sheet: its refusal or its answer.
#![tactic(auto)]

mod work;

pub use work::{work_out, work_out_as};
