ghost use Rattle.book_words.specs.Soundness.{IsRefusal};

use book_words::Refused;

/// Who hears which lines of a setup are refused, each as it is answered. What is made of it stands
/// in no clause.
pub trait SetupNotices {
    /// The command of a line was refused: the number of the line, from 1, and its bytes without the
    /// LF.
    fn refused(&mut self, number: u64, line: &[u8], refused: &Refused)
        requires { IsRefusal refused.now };
}

/// Who hears nothing.
#[derive(Drop)]
pub struct NoNotices;

impl SetupNotices for NoNotices {
    fn refused(&mut self, _: u64, _: &[u8], _: &Refused) {}
}
