//! The command line of `escrow`: what the words of a call ask for, and what is done for an order.
#![tactic(auto)]

mod acting;
mod grammar;
mod laws;
mod lines;
mod order;
mod paths;
mod reading;
mod subcommands;
mod sweeping;
mod values;
mod words;

pub use acting::act;
pub use answer_lines::tell;
pub use laws::{law_due, law_orders, law_reads};
pub use lines::{LineFault, line_words, next_line, order_in_batch};
pub use order::{Argument, Deed, Order, WordFault};
pub use paths::file_name;
pub use words::order_of;
