//! The simulator's script language: parsing and playing of script lines over a reader and a writer, and
//! the text of every reply.
#![tactic(auto)]

mod forgery;
pub mod laws;
pub mod line_reading;
pub mod message_text;
mod play;
mod refusal_text;
pub mod reply_text;
pub mod sim;
pub mod sim_line;

pub use line_reading::read_line;
pub use sim::{SimFault, sim_run};
pub use sim_line::SimLine;
pub use wl_script_words::ParseFault;
