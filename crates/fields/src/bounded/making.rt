// A bounded text, made from its bytes and given back.
ghost use Rattle.std.specs.Prelude.{◌≡◌, ◌-◌, ◌≤◌, ◌++◌, length, replicate};
ghost use Rattle.fields.specs.Bounded.{bounded_text};

use super::Bounded;

fn padded<const N: usize>(text: &[u8]) -> [u8; N]
    requires { length text.now ≤ N }
    ensures { result ≡ text.now ++ replicate (N - length text.now) 0 }
{
    let mut bytes = [0; N];
    bytes[..text.len()].copy_from_slice(text);
    bytes
}

impl<const N: usize> Bounded<N> {
    pub(crate) fn of(text: &[u8]) -> Bounded<N>
        requires { (length text.now ≤ N) × (N ≤ 255) }
        ensures { bounded_text result ≡ text.now }
    {
        let bytes = padded::<N>(text);
        Bounded {
            bytes,
            len: text.len() as u8,
        }
    }

    pub(crate) fn text(&self) -> &[u8]
        ensures is { result.now ≡ bounded_text self.now }
        ensures short { length result.now ≤ N }
    {
        &self.bytes[..self.len as usize]
    }
}
