// Records are written.
ghost use Rattle.std.specs.Prelude.{◌≡◌, ◌<◌, ◌^◌, ◌++◌, OnOk, IfOk};
ghost use Rattle.qm_bytes.specs.Laws.{Spells};
ghost use Rattle.qm_bytes.specs.Spelling.{IsMoment};
ghost use Rattle.qm_model.specs.Log.{request_record};
ghost use Rattle.qm_record.specs.Spelling.{body_parts, text_of, record_text, BodyFits, IsShortBody, CanBeWritten, CanBeRecorded, HasSpelling};

use crate::kind::RecordKind;
use crate::request::{put_front, put_request};
use crate::row::{put_form, put_head, put_queue};
use qm_kinds::{Body, Moment, Record, Request};
use std::alloc::{AllocError, Global};

// Appends a record.
fn put_body(out: &mut Vec<u8>, moment: Moment, node: u8, body: &Body) -> Result<(), AllocError>
    requires { IsShortBody body.now }
    ensures ok { OnOk result (out.new.items
        ≡ out.old.items ++ text_of moment node (body_parts body.now)) }
    ensures moment { OnOk result (IsMoment moment) }
    ensures lawful { OnOk result (BodyFits body.now) }
{
    match body {
        Body::Ask(request) => put_request(out, moment, node, request),
        Body::Head {
            nodes,
            may,
            next_entry,
            next_run,
            last,
        } => {
            put_front(out, RecordKind::Head, moment, node)?;
            put_head(out, nodes, may, *next_entry, *next_run, *last)?;
            Ok(())
        }
        Body::Form(form) => {
            put_front(out, RecordKind::Form, moment, node)?;
            put_form(out, form)?;
            Ok(())
        }
        Body::Queue(queue) => {
            put_front(out, RecordKind::Queue, moment, node)?;
            put_queue(out, queue)?;
            Ok(())
        }
        _ => unreachable!(),
    }
}

/// The one spelling of a record, which is asked to have short lists and, as a row, the moment and the node 0.
pub fn write_record(alloc: Global, what: &Record) -> Result<Vec<u8>, AllocError>
    requires { CanBeWritten what.now }
    ensures { IfOk result (λ text. Spells HasSpelling record_text what.now text.items) }
{
    let mut out = Vec::new(alloc);
    put_body(&mut out, what.moment, what.node, &what.body)?;
    Ok(out)
}

/// The one spelling of the record of a request, which acted at a moment, and was asked from the node of this place.
pub fn write_request(
    alloc: Global,
    moment: Moment,
    node: u8,
    request: &Request,
) -> Result<Vec<u8>, AllocError>
    requires { CanBeRecorded request.now }
    ensures { IfOk result (λ text.
        Spells HasSpelling record_text (request_record moment node request.now) text.items) }
{
    let mut out = Vec::new(alloc);
    put_request(&mut out, moment, node, request)?;
    Ok(out)
}
