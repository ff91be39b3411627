//! The lines that the program prints of a packet, a demo, a row, a node, an event, an answer and a game, and
//! the bad line of a script.

mod demo;
mod game;
mod nodes;
mod packet;

pub use demo::{push_row, text_of_demo};
pub use game::{push_answer, push_game, push_trace_line, text_of_bad_line};
pub use nodes::push_node;
pub use packet::text_of_packet;
