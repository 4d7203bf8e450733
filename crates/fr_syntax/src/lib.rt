//! From the bytes of a source to its tokens, and the tree of a program.
//! The tokens are those of the language, the longest text first, or there is the first text that spells none. A tree's nodes
//! keep what they mean while more are added, and each is told with the meanings of its parts.
#![tactic(auto)]

mod kind;
mod known;
mod laws;
mod lexer;
mod list;
mod scan;
mod token;
mod tree;

pub use kind::TokenKind;
pub use laws::one_reading;
pub use lexer::tokens;
pub use list::Tokens;
pub use token::{Token, TokenError};
pub use tree::{Node, Nodes, Term, Tree};
