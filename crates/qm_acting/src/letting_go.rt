// How an image is let go.
use qm_image::Image;

// Lets go of an image. At the ends of the functions that own one it would be let go field by field, at each of them.
pub(crate) fn let_go(_image: Image) {}
