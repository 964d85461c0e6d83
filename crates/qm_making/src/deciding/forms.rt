// Forms are defined and deleted: what is decided.
ghost use Rattle.std.specs.Prelude.{◌≡◌, ◌+◌, nat_le};
ghost use Rattle.qm_kinds.specs.declared.request.Request.TheVariants as request;
ghost use Rattle.qm_model.specs.Forms.{is_bad_form, is_form_taken, define_form_refusal, delete_form_refusal};
ghost use Rattle.qm_image.specs.Deciding.{Prepares};
ghost use Rattle.qm_image.specs.Image.{system_of};

use qm_image::{Change, Image, Refused};
use qm_kinds::{Form, Holder, LAST_FORM, Name, NameOrNumber, Refusal, default_form};
use qm_rules::{
    Named, QueueNamed, first_refusal, refused_by_entry, refused_by_queue, refused_where,
};
use qm_tables::FormTable;
use std::alloc::AllocError;

// Whether margins before and behind leave no room.
fn leave_no_room(whole: u8, before: u8, behind: u8) -> bool
    ensures { result ≡ nat_le whole (before + behind) }
{
    u16::from(whole) <= u16::from(before) + u16::from(behind)
}

// Whether the margins leave no room, or the number is too great.
fn is_bad_form(form: &Form) -> bool
    ensures { result ≡ is_bad_form form.now }
{
    let shape = form.shape;
    leave_no_room(shape.length, shape.top, shape.bottom)
        || leave_no_room(shape.width, shape.left, shape.right)
        || form.number > LAST_FORM
}

// Whether a form has the name or the number.
fn is_form_taken(forms: &FormTable, form: &Form) -> bool
    ensures { result ≡ is_form_taken forms.now.forms form.now }
{
    forms.form(&NameOrNumber::Name(form.name)).is_some()
        || forms.form(&NameOrNumber::Number(form.number)).is_some()
}

// Why a form can't be defined.
#[tactic(auto, unfolding(qm_image::specs::Image::system_of))]
fn define_form_refusal(image: &Image, form: &Form) -> Option<Refusal>
    ensures { result ≡ define_form_refusal (system_of image.now) form.now }
{
    let refusals = [
        refused_where(is_bad_form(form), Refusal::BadValue),
        refused_where(
            is_form_taken(image.parts.form_table(), form),
            Refusal::DuplicateForm,
        ),
    ];
    first_refusal(&refusals)
}

/// Decides on a form that is defined, and takes the memory for it.
#[tactic(auto, unfolding(qm_image::specs::Image::system_of))]
#[inline(never)]
pub fn prepare_define_form<'a>(image: &mut Image, form: &Form) -> Result<Change<'a>, Refused>
    ensures { Prepares (request.DefineForm form.now) image.old image.new result }
{
    if let Some(refusal) = define_form_refusal(image, form) {
        return Err(Refused::By(refusal));
    }
    match image.parts.reserve_form() {
        Ok(()) => Ok(Change::NewForm { form: *form }),
        Err(AllocError) => Err(Refused::NoMemory),
    }
}

// Why a form can't be deleted. The entries are looked at only where nothing else refuses it.
#[tactic(auto, unfolding(qm_image::specs::Image::system_of))]
fn delete_form_refusal(image: &Image, name: &Name) -> Option<Refusal>
    ensures { result ≡ delete_form_refusal (system_of image.now) name.now }
{
    let wanted = NameOrNumber::Name(*name);
    if image.parts.form_table().form(&wanted).is_none() {
        return Some(Refusal::NoSuchForm { wanted });
    }
    if *name == default_form() {
        return Some(Refusal::Referenced { by: Holder::Always });
    }
    if let Some(refusal) = refused_by_queue(image.parts.queues(), &QueueNamed::Form(name)) {
        return Some(refusal);
    }
    refused_by_entry(image.parts.entries(), &Named::Form(name))
}

/// Decides on a form that is deleted.
#[tactic(auto, unfolding(qm_image::specs::Image::system_of))]
#[inline(never)]
pub fn prepare_delete_form<'a>(image: &Image, name: &Name) -> Result<Change<'a>, Refused>
    ensures { Prepares (request.DeleteForm name.now) image.now image.now result }
{
    if let Some(refusal) = delete_form_refusal(image, name) {
        return Err(Refused::By(refusal));
    }
    Ok(Change::RemoveForm { name: *name })
}
