//! Whether nodes are a listing.
ghost use Rattle.std.specs.Prelude.{◌≡◌, ◌↔◌, IsTrue, true, false, Some, None, reverse};
ghost use Rattle.psx_flow.specs.Well.{IsWell, is_well};
ghost use Rattle.psx_flow.specs.Nodes.{bodies_after, opened};

use crate::fit::may_stand;
use crate::node::Node;
use arrayvec::ArrayVec;

/// How deep brackets may be nested.
pub const DEEPEST: usize = 16;

// A body in which nodes stand, up to its end.
#[derive(Clone, Copy)]
enum Body {
    // The first body of an If: an Other or an End ends it.
    First,
    // The second body of an If, or the body of a While: an End ends it.
    Last,
}

impl Default for Body {
    fn default() -> Body {
        Body::Last
    }
}

// The bodies in which a node stands, the innermost last.
type Bodies = ArrayVec<Body, DEEPEST>;

// Opens a body. False where that is too deep.
fn open(bodies: &mut Bodies, body: Body) -> bool
    ensures deep { result ≡ false → opened body (reverse bodies.old.items) ≡ None }
    ensures room { result ≡ true → opened body (reverse bodies.old.items) ≡ Some (reverse bodies.new.items) }
{
    bodies.try_push(body).is_ok()
}

// Steps over a node. False where it can't stand in these bodies.
fn step(node: Node, bodies: &mut Bodies) -> bool
    ensures bad { result ≡ false → bodies_after node (reverse bodies.old.items) ≡ None }
    ensures good { result ≡ true → bodies_after node (reverse bodies.old.items) ≡ Some (reverse bodies.new.items) }
{
    match node {
        Node::If(_) => open(bodies, Body::First),
        Node::While(_) => open(bodies, Body::Last),
        Node::Other => match bodies.pop() {
            Some(Body::First) => open(bodies, Body::Last),
            Some(Body::Last) | None => false,
        },
        Node::End => bodies.pop().is_some(),
        Node::Op(_) | Node::Call(_) | Node::Jump(_) | Node::JumpTo(_) => true,
    }
}

// Steps over all nodes.
fn all_stand(nodes: &[Node]) -> bool
    ensures { result ≡ is_well nodes.now }
{
    let mut bodies = ArrayVec::new();
    for node in nodes {
        if !may_stand(*node) || !step(*node, &mut bodies) {
            return false;
        }
    }
    bodies.is_empty()
}

/// Whether the nodes are a listing: If, Other, While and End are bracketed, at most 16 deep; every instruction fits and is
/// no branch, jump, SYSCALL, BREAK or RFE; every register of a test or of JumpTo is below 32.
pub fn well(nodes: &[Node]) -> bool
    ensures value { result ≡ is_well nodes.now }
    ensures tree { IsTrue result ↔ IsWell nodes.now }
{
    all_stand(nodes)
}
