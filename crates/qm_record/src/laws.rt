// Laws of the spellings of records.
ghost use Rattle.std.specs.Prelude.{◌≤◌, length, IsSome};
ghost use Rattle.qm_kinds.specs.declared.request.Request.{Request as AnyRequest};
ghost use Rattle.qm_kinds.specs.declared.record.Record.{Record as AnyRecord};
ghost use Rattle.qm_record.specs.Spelling.{request_parts, record_text, HasSpelling};
ghost use Rattle.qm_record.specs.Rows.{IsRow};

/// A row of an image takes at most 5,308,370 bytes. So many does a head take with 65,535 nodes, and with as many that
/// may be, each with a name of 39 bytes.
pub fn rows_are_short()
    ensures { (r : AnyRecord) → HasSpelling r → IsRow r.body → length (record_text r) ≤ 5308370 }
{}

/// Each request is spelled. Which of them may stand in a queue file so far is another matter.
pub fn requests_have_records()
    ensures { (r : AnyRequest) → IsSome (request_parts r) }
{}
