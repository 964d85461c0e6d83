//! The changes of an image that were prepared are made, each by a call that takes no memory: all room which it needs is there.
#![tactic(auto)]

mod deciding;
mod defining;
mod due;
mod entering;
mod files;
mod making;
mod merging;
mod nodes;
mod queue_act;

pub use deciding::{
    prepare_append, prepare_define_characteristic, prepare_define_form,
    prepare_delete_characteristic, prepare_delete_form, prepare_delete_queue, prepare_drop,
    prepare_fill, prepare_initialize, prepare_node_lost, prepare_node_up, prepare_set,
    prepare_start, prepare_stop, prepare_took,
};
pub use defining::{define_characteristic, define_form, remove_characteristic, remove_form};
pub use due::reach;
pub use entering::enter;
pub use files::{extend_file, make_file, remove_file};
pub use making::{
    cut_short, put_queue, remove_entry, remove_queue, replace_entry, report_run, set_queue,
    stop_queue,
};
pub use merging::merge;
pub use nodes::{lose_nodes, start_node, take_over};
