// Text that is made by putting pieces one after the other.
// No Display: `write!` to a writer in fixed memory promises its text only where it succeeds, and not that it does where there is room; these
// functions cannot fail. Each asks for the room that its own piece takes, which no type can carry.
#![tactic(auto)]

mod lent;
mod sink;
#[cfg(test)]
mod tests;
mod vector;

pub use lent::LentText;
pub use sink::TextSink;
