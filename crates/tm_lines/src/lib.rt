//! Text files read line by line, into a value or the first line that is refused.
//!
//! A file begins with a header, its kind and its version ([`below_header`]). [`take_lines`] then hands the tokens of
//! each line to a [`Format`], which adds to its value what they say, or gives a [`Reason`]; the first line
//! that is refused is the [`Fault`] of the file. A line ends with LF, which the last line may lack, and one
//! CR before its end is dropped. Its tokens are parted by spaces and tabs. A line without tokens, or whose
//! first token begins with `#`, is skipped. [`number_at`] and [`word_at`] read the two spellings of numbers:
//! `0x` and 1 to 8 hexadecimal digits or 1 to 10 decimal digits, and exactly 8 hexadecimal digits.
#![tactic(auto)]

mod fault;
pub mod laws;
mod lines;
mod numbers;

pub use fault::{Fault, Reason};
pub use lines::{Format, below_header, spells, take_lines};
pub use numbers::{number_at, numbers_at, word_at, words_at};
