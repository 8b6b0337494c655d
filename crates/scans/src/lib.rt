// A text is scanned: its lines are read one after the other, and what they say goes to a list. Nothing that a user lends is written here.
#![tactic(auto)]

ghost use Rattle.std.specs.Prelude.{◌≡◌, length};
ghost use Rattle.bodies.specs.Scanned.{Scanned};

use bodies::{Head, refuse};
use refusals::{Reason, Refusal};

// Reads a text; the ancestors and then the cells go to `out`.
pub fn scan(text: &[u8], out: &mut [u16; 16384]) -> Result<Head, Refusal>
    requires { length out.old ≡ 16384 }
    ensures { Scanned text.now result out.new }
{
    if 32768 < text.len() {
        return Err(refuse(Reason::Long, 0));
    }
    let taxa = lines::head(text, 0, b"taxa=").ok_or(refuse(Reason::Form, 1))?;
    let characters = lines::head(text, taxa.next, b"characters=").ok_or(refuse(Reason::Form, 2))?;
    let (n, c) = (taxa.value, characters.value);
    if n < 3 || 256 < n || c < 1 || 512 < c {
        return Err(refuse(Reason::Limits, 0));
    }
    bodies::read_body(text, characters.next, n, c, out)
}
