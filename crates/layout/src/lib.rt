// Where a book keeps what, and whether its sizes are sound.
#![tactic(auto)]

mod book;
mod examination;
mod offsets;

pub use book::Book;
pub use examination::Sizes;
pub use offsets::{BookLayout, Layout};
