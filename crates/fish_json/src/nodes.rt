//! The two tests of a tape that its text is also a text for `serde_json`: how deep it nests, and
//! the range of its numbers. All else of the grammar is the same.

ghost use Rattle.std.specs.Prelude.{◌≡◌, is_some, map};
ghost use Rattle.json.specs.Tape.{node_token};
ghost use Rattle.fish_json.specs.within.Tape.{open_after, open_behind};

use crate::number::in_range;
use json::Node;

/// How many objects and arrays may be open at a place.
const MAX_DEPTH: usize = 127;

/// Whether all objects and arrays are within the depth, and all numbers in range.
pub(crate) fn fits(nodes: &[Node<'_>]) -> bool
    ensures { result ≡ is_some (open_after 0 (map node_token nodes.now)) }
{
    let mut depth = 0;
    for node in nodes {
        let Some(next) = behind(depth, node) else {
            return false;
        };
        depth = next;
    }
    true
}

/// How many are open after a node.
fn behind(depth: usize, node: &Node<'_>) -> Option<usize>
    ensures { result ≡ open_behind depth (node_token node.now) }
{
    match node {
        Node::Object(_) | Node::Array(_) => {
            if depth < MAX_DEPTH {
                Some(depth + 1)
            } else {
                None
            }
        }
        Node::EndObject | Node::EndArray => Some(depth.saturating_sub(1)),
        Node::Number(text) => { if in_range(text) { Some(depth) } else { None } }
        Node::Key(_) | Node::String(_) | Node::Bool(_) | Node::Null => Some(depth),
    }
}
