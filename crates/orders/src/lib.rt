// An order of the interior nodes in which each stands behind its ancestor, from the lists of their descendants.
#![tactic(auto)]

ghost use Rattle.std.specs.Prelude.{◌≡◌, ℕ, ◌<◌, length};
ghost use Rattle.orders.specs.Orders.{put_at, place_after, Orderable, Listed};

use shapes::Shape;

// Puts a node into the list at the place `filled`, if it is interior, and answers the next place.
fn put(n: usize, node: u16, filled: usize, order: &mut [u16; 254]) -> usize
    requires { (length order.old ≡ 254) × (n < node → filled < 254) }
    ensures { (order.new ≡ put_at n node filled order.old) × (result ≡ place_after n node filled) }
{
    if usize::from(node) <= n {
        return filled;
    }
    order[filled] = node;
    filled + 1
}

// The interior nodes, each behind its ancestor: the root's descendant, and then, for each node of the list in turn, its interior descendants.
pub fn order(n: usize, top: u16, shape: &Shape) -> [u16; 254]
    requires { Orderable n top shape.now.left shape.now.right }
    ensures { Listed n top shape.now.left shape.now.right result }
{
    let mut order = [0; 254];
    order[0] = top;
    let mut filled: usize = 1;
    let mut next: usize = 0;
    // A `while`: the list grows as it is gone through, so a `for` would stop at the end that it had at first.
    while next < filled {
        let at = usize::from(order[next]) - n - 1;
        let first = put(n, shape.left[at], filled, &mut order);
        filled = put(n, shape.right[at], first, &mut order);
        next += 1;
    }
    order
}
