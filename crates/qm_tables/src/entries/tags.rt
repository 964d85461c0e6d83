// The tags of entries: small numbers that lie one behind another and tell of most entries, without a look at them, that a queue
// isn't their home.
ghost use Rattle.std.specs.Prelude.{◌≡◌, ◌≤◌, ◌<◌, length, vec_len, vec_capacity};
ghost use Rattle.qm_tables.specs.Boxed.{contents};
ghost use Rattle.qm_tables.specs.Tags.{tag_behind, tag_of, tags_of, IsRetagged};

use qm_kinds::{Entry, Name};

// The tag of a name that goes on with a byte.
fn tag_behind(tag: u16, byte: u8) -> u16
    ensures { result ≡ tag_behind tag byte }
{
    ((u32::from(tag) * 31 + u32::from(byte)) % 65536) as u16
}

/// The tag of the entries that have the queue of this name as their home. Entries of other homes rarely have the same.
pub fn home_tag(name: &Name) -> u16
    ensures { result ≡ tag_of name.now }
{
    let mut tag = 0;
    for byte in name.as_bytes() {
        tag = tag_behind(tag, *byte);
    }
    tag
}

/// Writes the tags of all entries anew. There is room for them.
pub(crate) fn retag(boxes: &[Box<Entry>], tags: &mut Vec<u16>)
    requires { length boxes.now ≤ vec_capacity tags.old }
    ensures tags { tags.new.items ≡ tags_of (contents boxes.now) }
    ensures len { vec_len tags.new ≡ length boxes.now }
    ensures capacity { vec_capacity tags.new ≡ vec_capacity tags.old }
{
    tags.clear();
    for boxed in boxes {
        tags.push_reserved(home_tag(&boxed.home));
    }
}

/// Writes the tag of the entry at a place anew.
pub(crate) fn retag_at(boxes: &[Box<Entry>], tags: &mut Vec<u16>, place: usize)
    requires place { place < length boxes.now }
    requires tag_place { place < vec_len tags.old }
    ensures tags { IsRetagged (contents boxes.now) place tags.old.items tags.new.items }
    ensures len { vec_len tags.new ≡ vec_len tags.old }
    ensures capacity { vec_capacity tags.new ≡ vec_capacity tags.old }
{
    tags[place] = home_tag(&boxes[place].home);
}
