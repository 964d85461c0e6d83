//! What a script is, and what its lines are made of: the lines of a text in order, each of a user at a node, of which a command
//! may go on; what a call by an item list and an act at the site ask for; and the words with which a site is made. `read_lines`
//! reads a script, `items_asked` and `act_asked` the text of a line, and `read_nodes` and `read_cap` those words. No line is
//! served here.
#![tactic(auto)]

mod act;
mod asked;
mod extent;
mod hexadecimal;
mod items;
mod laws;
mod lines;
mod script;
mod served;
mod sites;

pub use asked::{act_asked, steps_of};
pub use extent::joined;
pub use items::items_asked;
pub use laws::a_script_has_a_limit;
pub use lines::{LineSort, LinesEnd, UserLine, read_lines};
pub use script::read_node_name;
pub use served::{caps_have_limits, named_nodes_make_a_site};
pub use sites::{read_cap, read_nodes};
