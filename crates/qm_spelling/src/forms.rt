// Commands of forms and characteristics.
ghost use Rattle.std.specs.Prelude.{◌≡◌, Some};
ghost use Rattle.qm_commands.specs.declared.word.Word.TheVariants as words;
ghost use Rattle.qm_spelling.specs.Pieces.{valued};
ghost use Rattle.qm_spelling.specs.Forms.{are_default_margins, margins_unless_default, shape_text, form_text, characteristic_text};

use crate::jobs::{number_unless_default, unless_default};
use crate::pieces::{GivenByte, GivenName, Marked};
use qm_kinds::{Characteristic, Form, Shape};
use std::fmt;

/// `DEFINE/FORM`
#[derive(Clone, Copy)]
pub(crate) struct FormText<'a>(pub(crate) &'a Form);

/// `DEFINE/CHARACTERISTIC`
#[derive(Clone, Copy)]
pub(crate) struct CharacteristicText<'a>(pub(crate) &'a Characteristic);

// The margins of a form, unless they are those of one for which none are given.
#[derive(Clone, Copy)]
struct MarginsText<'a>(&'a Shape);

// How text is set on a form.
#[derive(Clone, Copy)]
struct ShapeText<'a>(&'a Shape);

impl fmt::Display for MarginsText<'_> {
    ghost output = { λ m. Some (valued words.Margin (margins_unless_default m.0.now)) };

    fn fmt<W: fmt::Write>(&self, f: &mut fmt::Formatter<W>) -> fmt::Result {
        let shape = self.0;
        if are_default_margins(shape) {
            return Ok(());
        }
        let Shape {
            top,
            bottom,
            left,
            right,
            ..
        } = *shape;
        write!(
            f,
            "/MARGIN=(TOP={top},BOTTOM={bottom},LEFT={left},RIGHT={right})"
        )
    }
}

impl fmt::Display for ShapeText<'_> {
    ghost output = { λ s. Some (shape_text s.0.now) };

    fn fmt<W: fmt::Write>(&self, f: &mut fmt::Formatter<W>) -> fmt::Result {
        let shape = self.0;
        let length = GivenByte {
            qualifier: "LENGTH",
            value: number_unless_default(66, shape.length),
        };
        let width = GivenByte {
            qualifier: "WIDTH",
            value: number_unless_default(132, shape.width),
        };
        let margins = MarginsText(shape);
        let wrap = Marked {
            qualifier: "WRAP",
            given: shape.wrap,
        };
        write!(f, "{length}{width}{margins}{wrap}")
    }
}

impl fmt::Display for FormText<'_> {
    ghost output = { λ t. Some (form_text t.0.now) };

    fn fmt<W: fmt::Write>(&self, f: &mut fmt::Formatter<W>) -> fmt::Result {
        let form = self.0;
        let stock = GivenName {
            qualifier: "STOCK",
            value: unless_default(&form.name, &form.stock),
        };
        let shape = ShapeText(&form.shape);
        write!(f, "DEFINE/FORM {} {}{stock}{shape}", form.name, form.number)
    }
}

impl fmt::Display for CharacteristicText<'_> {
    ghost output = { λ c. Some (characteristic_text c.0.now) };

    fn fmt<W: fmt::Write>(&self, f: &mut fmt::Formatter<W>) -> fmt::Result {
        let Characteristic { name, number } = self.0;
        write!(f, "DEFINE/CHARACTERISTIC {name} {number}")
    }
}

// Whether the margins are those of a form for which none are given.
fn are_default_margins(shape: &Shape) -> bool
    ensures { result ≡ are_default_margins shape.now }
{
    shape.top == 0 && shape.bottom == 6 && shape.left == 0 && shape.right == 0
}
