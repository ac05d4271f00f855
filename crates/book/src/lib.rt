// A book over lent bytes, and how it is made new.
#![tactic(auto)]

mod making;

pub use making::new_book;
