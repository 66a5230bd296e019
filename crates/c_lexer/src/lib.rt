//! The lexer: bytes to tokens.
#![tactic(auto)]

mod classes;
mod constants;
mod fault;
mod gaps;
mod laws;
mod lexer;
mod piece;
mod quotes;
mod tables;
mod token;
mod words;

pub use fault::LexFault;
pub use laws::{comment_law, mark_law, reading_law, text_law, word_law};
pub use lexer::lex;
pub use token::{Key, Mark, Tok, Token};

#[cfg(test)]
mod tests;
