// One coefficient of a set, whose bytes are known to be there.
ghost use Rattle.std.specs.Prelude.{◌≡◌, ◌+◌, ◌≤◌, length};
ghost use Rattle.numbers.specs.Fields.{signed_at};

use numbers::fields::Number;

// of eight bytes, so that no bounds check is left
pub fn coefficient(body: &[u8], at: usize) -> i64
    requires { at + 8 ≤ length body.now }
    ensures { result ≡ signed_at 8 body.now at }
{
    i64::at(&body[at..at + 8], 0)
}
