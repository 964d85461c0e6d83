// What was prepared is made.
ghost use Rattle.std.specs.Prelude.{◌≡◌, ◌≤◌};
ghost use Rattle.qm_model.specs.Common.{IsConsistent, replied};
ghost use Rattle.qm_image.specs.Image.{system_of};
ghost use Rattle.qm_image.specs.Preparing.{made, outcome_of, IsPrepared, IsReady};

use crate::settling::settle;
use qm_image::{Change, Image, Prepared};
use qm_kinds::{Act, Moment, Name, Reply, Seq};
use qm_making::{
    cut_short, define_characteristic, define_form, enter, extend_file, lose_nodes, make_file,
    merge, put_queue, reach, remove_characteristic, remove_entry, remove_file, remove_form,
    remove_queue, replace_entry, report_run, set_queue, start_node, stop_queue, take_over,
};
use qm_model::due_keeps_consistent;

/// Makes the change that was prepared, at its moment, starts the jobs that can start then, and says what was done. It
/// takes no memory: all was taken with what was prepared.
#[tactic(auto, unfolding(qm_image::specs::Image::system_of, qm_image::specs::Preparing::made, qm_image::specs::Preparing::changed))]
pub fn commit(image: &mut Image, prepared: Prepared) -> Reply
    requires sound { IsConsistent (system_of image.old) }
    requires prepared { IsPrepared image.old prepared }
    ensures done { made prepared.entry (system_of image.old) ≡ record { system = system_of image.new; reply = result } }
{
    due_keeps_consistent();
    let Prepared {
        at,
        node,
        change,
        mut started,
    } = prepared;
    reach(image, at);
    let act = make(image, at, &node, change);
    image.parts.stop_idle();
    settle(&mut image.parts, &mut started);
    Reply {
        act,
        started: Seq::of(started),
    }
}

// Makes a change of the rows that the moment finds. As in `prepare_change`, nothing is inlined here.
#[tactic(auto, unfolding(qm_image::specs::Image::system_of))]
fn make(image: &mut Image, now: Moment, node: &Name, change: Change) -> Act
    requires sound { IsConsistent (system_of image.old) }
    requires ready { IsReady image.old change }
    ensures done { outcome_of change.entry now node.now (system_of image.old) ≡ replied (system_of image.new) result }
    ensures room { image.old.parts.spare_runs ≤ image.new.parts.spare_runs }
{
    match change {
        Change::NewFile { name, bytes } => make_file(image, &name, bytes),
        Change::MoreBytes { name, bytes } => extend_file(image, &name, bytes),
        Change::MoreLines { name, bytes } => extend_file(image, &name, &bytes),
        Change::RemoveFile { name } => remove_file(image, &name),
        Change::NewForm { form } => define_form(image, form),
        Change::RemoveForm { name } => remove_form(image, &name),
        Change::NewCharacteristic { characteristic } => {
            define_characteristic(image, characteristic)
        }
        Change::RemoveCharacteristic { name } => remove_characteristic(image, &name),
        Change::NewEntry { entry } => enter(image, &entry),
        Change::PutQueue { queue } => put_queue(image, queue),
        Change::SetQueue {
            name,
            settings,
            state,
        } => set_queue(image, &name, &settings, state),
        Change::StopQueue { name, how } => stop_queue(image, &name, how),
        Change::CutShort { entry, fate } => cut_short(image, entry, fate),
        Change::RemoveQueue { name } => remove_queue(image, &name),
        Change::Merge { to, from } => merge(image, &to, &from),
        Change::ReplaceEntry { entry } => replace_entry(image, entry),
        Change::RemoveEntry { entry } => remove_entry(image, entry),
        Change::Report { run, report } => report_run(image, now, node, run, &report),
        Change::NodeUp => start_node(image, node),
        Change::LoseNodes { nodes } => lose_nodes(image, now, node, nodes),
        Change::TakeOver {
            epoch,
            gone,
            up,
            may,
        } => take_over(image, now, node, epoch, gone, up, may),
        Change::Tick => Act::Ticked,
    }
}
