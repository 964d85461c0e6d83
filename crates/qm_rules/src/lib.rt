//! The rules by which a request is refused, over the rows of a system alone, and what a queue and an entry become that are made
//! or set. Each function says what the model says; nothing is changed here, and nothing of an image is known.
#![tactic(auto)]

mod built;
mod changing;
mod initializing;
mod kinds;
mod merging;
mod naming;
mod refusals;
mod reported;
mod settings;
mod stopping;
mod submitting;

pub use built::{has_form_names, has_short_names, is_built, is_definable};
pub use changing::{changed_entry, entry_change_refusal};
pub use initializing::{initialize_refusal, new_queue};
pub use kinds::is_generic;
pub use merging::merge_refusal;
pub use naming::{Named, QueueNamed, refused_by_entry, refused_by_queue};
pub use refusals::{first_refusal, refused_where};
pub use reported::Reported;
pub use settings::{refused_absent, refused_form, set_queue_refusal, settings_of};
pub use stopping::{delete_queue_refusal, state_on_stop, state_when_idle};
pub use submitting::{has_bad_value, refused_kind, state_of};
