//! Fields of bytes, each with one spelling: numbers with the lowest byte first, names, optional fields and lists.
//! A writer appends the spelling of a value. A reader takes a value from the front, or tells the first byte with
//! which no spelling goes on. Where memory runs out for the value, its text was read all the same.
#![tactic(auto)]

mod fault;
mod laws;
mod name;
mod number;
mod text;
mod value;
mod width;

pub use fault::BadField;
pub use laws::{fields_are_read_as_spelled, numbers_are_read_as_spelled};
pub use name::{put_name, read_name, take_name};
pub use number::{put_number, read_byte, read_number, read_number_up_to, take_number};
pub use text::{
    put_file_name, put_long_bytes, put_mark, put_optional_name, read_file_name, read_long_bytes,
    read_mark, read_optional_name,
};
pub use value::{
    put_moment, put_optional_moment, put_set, put_truth, read_moment, read_optional_moment,
    read_set, read_truth,
};
pub use width::Width;
