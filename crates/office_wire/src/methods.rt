ghost use Rattle.std.specs.Prelude.{◌≡◌, ◌≤◌, length};
ghost use Rattle.std.specs.Str.{bytes_eq};

use http::Method;
use std::alloc::Global;

/// The most bytes of a method for which no memory is taken.
const FREE_METHOD: usize = 15;

/// Whether bytes are a method for which no memory is taken. Where there is none for the bytes they
/// are more than that, and so another.
pub fn is_method(alloc: Global, bytes: &[u8], method: &Method) -> bool
    requires { length method.now ≤ FREE_METHOD }
    ensures { result ≡ bytes_eq bytes.now method.now }
{
    let word = method.as_str();
    match Method::from_bytes(alloc, bytes) {
        Ok(given) => given.as_str() == word,
        Err(_) => false,
    }
}
