//! Cutting a script into pieces, and a piece into tokens.
#![tactic(auto)]

mod bytes;
mod cut;
mod cut_laws;
mod gap;
mod growing;
mod mode;
mod piece_bytes;
mod quoted;
mod reader;
mod run;
mod symbol;
mod token;
mod token_laws;
mod token_text;
mod word;

pub use bytes::is_blank;
pub use cut::Cutter;
pub use cut_laws::{
    each_script_is_spans, nothing_is_no_piece, pieces_are_of_spans, pieces_are_short,
    pieces_come_in_parts, rest_is_of_spans, spans_are_one_list, states_come_in_parts,
};
pub use gap::behind_gaps;
pub use mode::Mode;
pub use piece_bytes::PieceBytes;
pub use reader::tokens;
pub use token::{LexError, Piece, Rest, Token};
pub use token_laws::{tokens_are_formed, tokens_are_spelled};
pub use token_text::TokenText;
