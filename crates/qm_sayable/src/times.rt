// How a command says a moment.
ghost use Rattle.std.specs.Prelude.{◌≡◌, Some};
ghost use Rattle.qm_model.specs.MomentText.{without_blank};
ghost use Rattle.qm_sayable.specs.Times.{time_text};

use qm_kinds::Moment;
use qm_time::text_of;
use std::fmt;

/// A moment as an absolute time, in quotes.
#[derive(Clone, Copy)]
pub struct QuotedTime(pub Moment);

// The text without the blank in front of it, if there is one.
fn without_blank(text: &str) -> &str
    ensures { result.now ≡ without_blank text.now }
{
    match text.strip_prefix(' ') {
        Some(rest) => rest,
        None => text,
    }
}

impl fmt::Display for QuotedTime {
    ghost output = { λ t. Some (time_text t.0) };

    fn fmt<W: fmt::Write>(&self, f: &mut fmt::Formatter<W>) -> fmt::Result {
        let text = text_of(self.0);
        write!(f, "\"{}\"", without_blank(text.as_str()))
    }
}
