//! A name while it is written.
ghost use Rattle.std.specs.Prelude.{◌≡◌, [], ◌++◌, codes, decimal};
ghost use Rattle.wesl_mangle.specs.Writes.{HasRoom, Answered};

use crate::fault::MangleFault;
use crate::name::LONGEST_MANGLED;
use itoa::Buffer;
use std::marker::Model;
use wesl_path::InlineBytes;

/// A name that is being written: at most 1,024 bytes.
#[derive(Drop)]
pub(crate) struct NameText {
    bytes: InlineBytes<LONGEST_MANGLED>,
}

impl Model for NameText {
    ghost use Rattle.std.specs.Prelude.{ℕ, List};
    ghost use Rattle.wesl_path.specs.Inline.{held};

    ghost Value = { List ℕ };

    ghost view = { λ n. held n.bytes };
}

impl NameText {
    /// Nothing is written yet.
    pub(crate) fn new() -> NameText
        ensures { result ≡ [] }
    {
        NameText {
            bytes: InlineBytes::new(),
        }
    }

    /// Writes bytes.
    pub(crate) fn push(&mut self, bytes: &[u8])
        requires { HasRoom self.old bytes.now }
        ensures { self.new ≡ self.old ++ bytes.now }
    {
        self.bytes.push(bytes).unwrap();
    }

    /// Writes a number in decimal.
    // Most lengths and counts are one digit, which takes no formatting.
    #[tactic(auto, using(std::proofs::lemmas::Fmt::decimal_digit))]
    pub(crate) fn push_decimal(&mut self, n: usize)
        requires { HasRoom self.old (decimal n) }
        ensures { self.new ≡ self.old ++ decimal n }
    {
        if n < 10 {
            self.push(&[b'0' + n as u8]);
        } else {
            self.push(Buffer::new().format(n).as_bytes());
        }
    }

    /// Writes a text, a number and `_`.
    pub(crate) fn push_numbered(&mut self, front: &[u8], n: usize)
        requires { HasRoom self.old (front.now ++ (decimal n ++ codes "_")) }
        ensures { self.new ≡ self.old ++ (front.now ++ (decimal n ++ codes "_")) }
    {
        self.push(front);
        self.push_decimal(n);
        self.push(b"_");
    }

    /// Hands the name over to the caller's buffer, where it fits.
    pub(crate) fn deliver(&self, out: &mut [u8]) -> Result<usize, MangleFault>
        ensures { Answered self.now out.old out.new result }
    {
        let name = self.bytes.as_slice();
        if name.len() > out.len() {
            return Err(MangleFault::NoRoom);
        }
        out[..name.len()].copy_from_slice(name);
        Ok(name.len())
    }
}
