//! Environments as chains of nodes, which all stand in one list.
ghost use Rattle.std.specs.Prelude.{◌≡◌, slice_get};
ghost use Rattle.cc_capture.specs.declared.var.Var.TheVariants.{Free};
ghost use Rattle.cc_machine.specs.Environments.{follow};
ghost use Rattle.cc_machine.specs.Operands.{IsFree, free_position};
ghost use Rattle.cc_machine.specs.Putting as environments;

use cc_capture::Var;

/// A binder: the position that it stands for, or none where it binds a type; and the number of the environment outside
/// of it. The number 0 is that of the empty environment, and each other one that of a node, counted from 1.
#[derive(Clone, Copy)]
pub struct Link {
    pub position: Option<u32>,
    pub before: usize,
}

// The node at the index, if there is one.
fn link_at(links: &[Link], index: usize) -> Option<Link>
    ensures { result ≡ slice_get links.now index }
{
    match links.get(index) {
        Some(link) => Some(*link),
        None => None,
    }
}

/// The position that the index stands for in the environment, if it stands for one.
pub fn find(links: &[Link], environment: usize, index: u32) -> Option<u32>
    ensures { result ≡ follow links.now environment index }
{
    let mut at = environment;
    let mut left = index;
    while at > 0 {
        match link_at(links, at - 1) {
            Some(link) => {
                if left == 0 {
                    return link.position;
                }
                left -= 1;
                at = link.before;
            }
            None => return None,
        }
    }
    None
}

/// The position of the variable in the environment, if it has one.
pub fn resolve(links: &[Link], environment: usize, variable: Var) -> Option<u32>
    ensures { result ≡ free_position (environments.resolved (follow links.now environment) variable) }
{
    match variable {
        Var::Bound(index) => find(links, environment, index),
        Var::Free(position) => Some(position),
    }
}

/// The position of the variable in the environment.
pub fn operand(links: &[Link], environment: usize, variable: Var) -> u32
    requires { IsFree (environments.resolved (follow links.now environment) variable) }
    ensures { environments.resolved (follow links.now environment) variable ≡ Free result }
{
    match resolve(links, environment, variable) {
        Some(position) => position,
        None => 0,
    }
}
