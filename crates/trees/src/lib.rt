// Tree tables: which are accepted and which are refused, and where.
#![tactic(auto)]

ghost use Rattle.std.specs.Prelude.{◌≡◌, ℕ, ◌≤◌};
ghost use Rattle.roots.specs.Roots.{IsRoot};
ghost use Rattle.trees.specs.Answers.{Sized, Checks, Answers};

use refusals::{Reason, Refusal};
use roots::NoRoot;

// The root of an accepted table, and the root's descendant.
#[derive(Clone, Copy, Debug, PartialEq, Eq)]
pub struct Rooted {
    pub root: u16,
    pub top: u16,
}

fn refuse(reason: Reason, place: usize) -> Refusal
    requires { place ≤ 510 }
    ensures { result ≡ record { reason = reason; place = place } }
{
    Refusal {
        reason,
        place: place as u32,
    }
}

// Checks a table of the right size: refusals 3 to 6, in this order.
pub fn check_tree(n: usize, tree: &[u16]) -> Result<Rooted, Refusal>
    requires { Sized n tree.now }
    ensures { Checks n tree.now result }
{
    match roots::find_root(n, tree) {
        Ok(root) => check_below(n, root, tree),
        Err(NoRoot::Stray(place)) => Err(refuse(Reason::Root, place)),
        Err(NoRoot::Missing) => Err(refuse(Reason::Root, 0)),
    }
}

// Checks a table whose root is found: refusals 4 to 6.
fn check_below(n: usize, root: usize, tree: &[u16]) -> Result<Rooted, Refusal>
    requires { Sized n tree.now × IsRoot n tree.now root }
    ensures { Checks n tree.now result }
{
    if let Some(place) = faults::stray_entry(n, root, tree) {
        return Err(refuse(Reason::Entry, place));
    }
    if let Some(place) = faults::wrong_count(n, root, tree) {
        return Err(refuse(Reason::Count, place));
    }
    if let Some(place) = climbs::lost_node(root, tree) {
        return Err(refuse(Reason::Lost, place));
    }
    let top = roots::descendant_of(root, tree);
    Ok(Rooted {
        root: root as u16,
        top: top as u16,
    })
}

// Accepts or refuses a table for n taxa: refusals 1 to 6, in this order.
pub fn accept_tree(n: usize, tree: &[u16]) -> Result<Rooted, Refusal>
    ensures { Answers n tree.now result }
{
    if n < 3 || 256 < n {
        return Err(refuse(Reason::Limits, 0));
    }
    if tree.len() != 2 * n - 2 {
        return Err(refuse(Reason::Length, 1));
    }
    check_tree(n, tree)
}
