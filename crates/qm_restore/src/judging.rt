// Which requests can act on an image.
ghost use Rattle.std.specs.Prelude.{◌≡◌, ◌↔◌, true};
ghost use Rattle.qm_history.specs.Accepted.{IsListOfNodes, HasListsOfNodes};
ghost use Rattle.qm_image.specs.Image.{system_of};
ghost use Rattle.qm_restore.specs.QueueFile.{CanAct};

use qm_image::Image;
use qm_kinds::{Moment, Name, Request};

// Whether each of these lists is one of the cluster's nodes.
fn are_lists_of_nodes(image: &Image, gone: &[Name], up: &[Name], may: &[Name]) -> bool
    ensures { (result ≡ true) ↔ (IsListOfNodes (system_of image.now) gone.now
        × IsListOfNodes (system_of image.now) up.now
        × IsListOfNodes (system_of image.now) may.now) }
{
    if !image.is_list_of_nodes(gone) {
        return false;
    }
    if !image.is_list_of_nodes(up) {
        return false;
    }
    image.is_list_of_nodes(may)
}

// Whether each list of nodes in the request names nodes of the cluster in its order, each once.
fn has_lists_of_nodes(image: &Image, request: &Request) -> bool
    ensures { (result ≡ true) ↔ HasListsOfNodes (system_of image.now) request.now }
{
    match request {
        Request::NodeLost { nodes } => image.is_list_of_nodes(nodes.as_slice()),
        Request::Took { gone, up, may, .. } => {
            are_lists_of_nodes(image, gone.as_slice(), up.as_slice(), may.as_slice())
        }
        _ => true,
    }
}

/// Whether a request can act: its moment doesn't go back, its node is there, and its names and lists of nodes keep their rules. One
/// that is spelled and isn't refused then can be the next record of a log.
pub fn can_act(image: &Image, moment: Moment, node: u8, request: &Request) -> bool
    ensures { (result ≡ true) ↔ CanAct (system_of image.now) moment node request.now }
{
    if moment < image.last() {
        return false;
    }
    if usize::from(node) >= image.nodes().len() {
        return false;
    }
    if !image.is_lawful(node, request) {
        return false;
    }
    has_lists_of_nodes(image, request)
}
