// What the names in a request keep to.
ghost use Rattle.std.specs.Prelude.{◌≡◌, ◌↔◌, ◌&&◌, nat_lt, true, filter, map, slice_get, Some};
ghost use Rattle.qm_model.specs.Common.{is_built, is_among, IsLawful};
ghost use Rattle.qm_image.specs.Image.{system_of};

use crate::image::Image;
use qm_kinds::{Name, NewQueue, Node, Request};
use qm_parts::is_among;
use qm_rules::{has_form_names, has_short_names, is_definable};

// Whether this name stands at the place.
fn is_at(names: &[Name], place: usize, name: &Name) -> bool
    ensures { (result ≡ true) ↔ (slice_get names.now place ≡ Some name.now) }
{
    if place >= names.len() {
        return false;
    }
    names[place] == *name
}

// Whether these are names of the nodes in their order, each once.
fn is_list_of(names: &[Name], nodes: &[Node]) -> bool
    ensures { (result ≡ true) ↔ (names.now ≡ filter (is_among names.now) (map (λ n. n.name) nodes.now)) }
{
    let mut found = 0usize;
    for node in nodes {
        if is_among(names, &node.name) {
            if !is_at(names, found, &node.name) {
                return false;
            }
            found += 1;
        }
    }
    found == names.len()
}

// Whether a queue can have its names, and comes from one of so many nodes.
fn can_be_made(new: &NewQueue, node: u8, nodes: usize) -> bool
    ensures { result ≡ (is_built (Request.InitializeQueue new.now) && nat_lt node nodes) }
{
    has_short_names(new) && usize::from(node) < nodes
}

impl Image {
    /// Whether these are names of the cluster's nodes in its order, each once. It asks for each node whether it is among them.
    #[tactic(auto, unfolding(crate::specs::Image::system_of))]
    pub fn is_list_of_nodes(&self, names: &[Name]) -> bool
        ensures { (result ≡ true) ↔ (names.now ≡ filter (is_among names.now) (map (λ n. n.name) (system_of self.now).nodes)) }
    {
        is_list_of(names, self.parts.nodes())
    }

    /// Whether what the request names can stand in this system: whatever is new has a name that it can have, a queue comes from a
    /// node of the cluster, and the nodes that may be queue manager stand in the cluster's order.
    #[tactic(auto, unfolding(crate::specs::Image::system_of))]
    pub fn is_lawful(&self, node: u8, request: &Request) -> bool
        ensures { (result ≡ true) ↔ IsLawful (system_of self.now) node request.now }
    {
        match request {
            Request::DefineForm(form) => has_form_names(form),
            Request::DefineCharacteristic(characteristic) => is_definable(&characteristic.name),
            Request::InitializeQueue(new) => can_be_made(new, node, self.nodes().len()),
            Request::Took { may, .. } => self.is_list_of_nodes(may.as_slice()),
            _ => true,
        }
    }
}
