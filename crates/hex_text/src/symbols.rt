//! How one byte of a text is taken.
ghost use Rattle.std.specs.Prelude.{◌≡◌};
ghost use Rattle.hex_text.specs.Text.{digit, step};

/// What of the text so far matters for the rest.
// Two fields and no enum: a comment may stand between the two digits of a pair.
#[derive(Debug, Clone, Copy, Default, PartialEq, Eq)]
pub struct State {
    pub comment: bool,
    /// The first digit of a pair, until its second comes.
    pub first: Option<u8>,
}

/// The value of a hexadecimal digit.
fn digit(byte: u8) -> Option<u8>
    ensures { result ≡ digit byte }
{
    Some(char::from(byte).to_digit(16)? as u8)
}

impl State {
    /// The state after one more byte, and the byte that it completes; none where it is no part of such a text.
    pub(crate) fn step(mut self, byte: u8) -> Option<(State, Option<u8>)>
        ensures { result ≡ step self byte }
    {
        let mut complete = None;
        match byte {
            _ if self.comment => self.comment = byte != b'\n',
            b'#' => self.comment = true,
            b' ' | b'\t' | b'\n' | b'\r' => {}
            _ => {
                let digit = digit(byte)?;
                match self.first.take() {
                    None => self.first = Some(digit),
                    Some(first) => complete = Some((first % 16) * 16 + digit),
                }
            }
        }
        Some((self, complete))
    }
}
