// Whole files by the place of their name among the arguments, and what a program prints: a number as a line.
#![tactic(auto)]

mod failure;
mod names;
mod numbers;
mod reading;
mod words;
mod writing;

pub use failure::{Failure, number};
pub use numbers::{low_first, print_number};
pub use reading::{load, read};
pub use words::{expect_words, given, word_count};
pub use writing::{Unwritten, store, store_keys};
