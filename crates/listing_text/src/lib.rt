// The listing's text. No Display: see `text`.
#![tactic(auto)]

mod block;
mod sheet_line;

pub use block::{put_header, put_lines};
pub use sheet_line::put_line;
