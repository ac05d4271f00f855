// The text of an answer, and of a refusal. No Display: see `text`.
#![tactic(auto)]

mod response;
mod words;

pub use response::{put_answer, put_refusal};
