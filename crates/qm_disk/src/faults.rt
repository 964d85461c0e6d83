// How often calls of the outside failed: a count that stands at the end of its type, and the calls of a form in memory, which
// fail where a list says so.
mod calls;
mod count;

pub use calls::Calls;
pub use count::Faults;
