// Values in boxes, one by one. None of these calls takes memory.
ghost use Rattle.std.specs.Prelude.{◌≡◌, ◌<◌, ◌+◌, ◌++◌, ◌∷◌, [], IsSome, None, Some, vec_len, vec_capacity, slice_set, slice_get, remove, option_copied};
ghost use Rattle.qm_tables.specs.Boxed.{contents};

/// The value at a place.
pub(crate) fn at<T>(boxes: &[Box<T>], place: usize) -> Option<&T>
    ensures { option_copied result ≡ slice_get (contents boxes.now) place }
{
    if place < boxes.len() {
        Some(boxes[place].as_ref())
    } else {
        None
    }
}

/// Puts a value behind the others, over what lay in the box that is ready. There is a place for it.
pub(crate) fn put_last<T: Copy>(boxes: &mut Vec<Box<T>>, ready: &mut Option<Box<T>>, value: &T)
    requires ready { IsSome ready.old }
    requires room { vec_len boxes.old < vec_capacity boxes.old }
    ensures contents { contents boxes.new.items ≡ contents boxes.old.items ++ value.now ∷ [] }
    ensures ready { ready.new ≡ None }
{
    let mut room = ready.take().unwrap();
    let _ = Box::replace(&mut room, *value);
    boxes.push_reserved(room);
}

/// Puts a value in the place of another one, and gives that.
pub(crate) fn replace<T: Copy>(boxes: &mut Vec<Box<T>>, place: usize, value: &T) -> T
    requires { place < vec_len boxes.old }
    ensures replaced { Some result ≡ slice_get (contents boxes.old.items) place }
    ensures contents { contents boxes.new.items
        ≡ slice_set (contents boxes.old.items) place value.now }
    ensures len { vec_len boxes.new ≡ vec_len boxes.old }
    ensures capacity { vec_capacity boxes.new ≡ vec_capacity boxes.old }
{
    Box::replace(&mut boxes[place], *value)
}

/// Takes the value at a place out, and frees its box.
pub(crate) fn take<T>(boxes: &mut Vec<Box<T>>, place: usize) -> T
    requires { place < vec_len boxes.old }
    ensures taken { Some result ≡ slice_get (contents boxes.old.items) place }
    ensures contents { contents boxes.new.items ≡ remove (contents boxes.old.items) place }
    ensures len { vec_len boxes.new + 1 ≡ vec_len boxes.old }
    ensures capacity { vec_capacity boxes.new ≡ vec_capacity boxes.old }
{
    Box::into_inner(boxes.remove(place))
}
