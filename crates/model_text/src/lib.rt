//! The text of a model, read as a network, and a network as a text.
//!
//! A text is `des 1`, and then a line for each component, state, transition and event. `specs/` says what a line says by
//! its tokens (`ModelLines.antt`), which network the lines are by selection (`ModelNetwork.antt`), and what the first fault
//! of a text is (`ModelFaults.antt`). The reader builds line by line; `lines_grow` is the law that ties the two. The text that is
//! printed of a network is stated in `PrintedModel.antt`; `models_read_back` is the law that what was read is printed as a text
//! that reads back as it (`ReadBack.antt`).
#![tactic(auto)]

mod addition;
mod fault;
mod header;
mod keyword;
mod laws;
mod line_name;
mod line_shape;
mod part_name;
mod parts;
mod print;
mod reader;
mod refusal;

pub use fault::{ModelFault, ModelRefusal};
pub use keyword::LineKeyword;
pub use laws::{lines_grow, models_read_back};
pub use print::print_model;
pub use reader::read_model;
