//! Replies that many commands give.
ghost use Rattle.std.specs.Prelude.{◌≡◌, ◌<◌, ◌^◌, IsTrue, pos};
ghost use Rattle.resp_values.specs.Line.{is_one_line};

use resp_values::{Line, Reply};

#[inline(never)]
pub(crate) fn simple(text: &'static [u8]) -> Reply
    requires { IsTrue (is_one_line text.now) }
    ensures { result ≡ Reply.Simple text.now }
{
    Reply::Simple(Line::from_static(text))
}

// A number of bytes or keys. Each takes memory, so there are far fewer than 2 ^ 63.
pub(crate) fn integer(count: usize) -> Reply
    requires { count < 2 ^ 63 }
    ensures { result ≡ Reply.Integer (pos count) }
{
    Reply::Integer(count as i64)
}
