// Requests about files, forms, characteristics, queues and nodes: each is decided, and the memory for its change taken. No row
// changes.

mod append;
mod characteristics;
mod filing;
mod forms;
mod nodes;
mod queues;

pub use append::prepare_append;
pub use characteristics::{prepare_define_characteristic, prepare_delete_characteristic};
pub use filing::{prepare_drop, prepare_fill};
pub use forms::{prepare_define_form, prepare_delete_form};
pub use nodes::{prepare_node_lost, prepare_node_up, prepare_took};
pub use queues::{
    prepare_delete_queue, prepare_initialize, prepare_set, prepare_start, prepare_stop,
};
