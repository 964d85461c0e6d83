//! Turns of the queue manager, the worlds between them and whole histories: types, definitions that the crates above
//! cite, and laws about them. It has no program: its functions are laws, and what these say is spelled out in `Laws`,
//! `CourseLaws` and `FileLaws` of `specs/`.
//!
//! That the blocks of a job, over several stretches and nodes, are all its pages is a definition alone (`EachCame`).
#![tactic(auto)]

mod again;
mod answers;
mod call;
mod courses;
mod crashes;
mod devices;
mod entries;
mod event;
mod events;
mod histories;
mod marks;
mod masters;
mod printed;
mod reading;
mod serve;
mod sound;
mod start;
mod takeovers;
mod turn;
mod turns;
mod world;

pub use again::jobs_that_went_back_run_again;
pub use answers::{full_files_are_full, journal_tells_of_disks, noted_calls_make_histories};
pub use call::{Answer, Call, Takeover};
pub use courses::{begun_courses_go_on, reports_are_of_steps};
pub use crashes::{
    crashes_leave_a_beginning, crashes_of_histories_are_of_turns, programs_go_on_after_crashes,
    programs_go_on_from_what_is_left, turns_have_one_event_or_two,
};
pub use devices::{
    blocks_come_again_behind_marks, fetches_show_recorded_marks, steps_come_in_stretches,
    stretches_are_consecutive,
};
pub use entries::submitted_entries_stay;
pub use event::Event;
pub use events::{
    acknowledged_records_stay, epochs_rise, histories_are_events, logs_grow,
    some_events_change_nothing,
};
pub use histories::{
    compactions_can_go_and_come, courses_are_of_own_turns, fenced_turns_change_nothing,
    other_epochs_are_fenced, texts_follow_turns, turns_tell_their_answers,
};
pub use marks::entries_have_their_last_marks;
pub use masters::{masters_are_judged_once, queue_files_read_one_way};
pub use printed::{blocks_come_again_elsewhere_behind_marks, no_block_is_left_out_of_a_stretch};
pub use reading::lines_are_read_as_they_are_served;
pub use serve::Serve;
pub use sound::{sound_worlds_are_consistent, worlds_stay_sound};
pub use start::{files_that_hold_a_log_begin_a_world, programs_begin_sound};
pub use takeovers::takeovers_tell_what_they_read;
pub use turn::{Turn, Why};
pub use turns::{each_call_has_a_turn, turns_without_fault_are_one};
pub use world::{Role, World};
