// Item lists: what a program asks for and is told, as codes with values, one behind another. A list of items has one spelling,
// which is written and reads back; what is no list is told by its first fault and the place of it.
//
// Of want of memory nothing is said.

mod fault;
mod item;
mod laws;
mod reading;
mod writing;

pub use fault::ItemFault;
pub use item::Item;
pub use laws::lists_are_read_once;
pub use reading::read_items;
pub use writing::write_items;
