//! The tokens of a text: their types, and their definition in `specs/`.
#![tactic(auto)]

mod examples;
mod fault;
mod laws;
mod piece;
mod spot;
mod token;

pub use examples::{a_string_is_a_piece, a_text_of_two_lines, the_longest_form_is_a_piece};
pub use fault::LexFault;
pub use laws::{
    a_text_has_one_first_fault, a_text_has_one_piece_in_front, a_text_has_one_string_in_front,
    a_text_has_one_token_list, a_text_is_cut_in_one_way, pieces_are_laid_out_in_one_way,
    places_of_pieces_ascend,
};
pub use piece::{Piece, Shape};
pub use spot::Spot;
pub use token::{Keyword, Mark, Token, TokenForm};
