//! A sector that is filled from its start.
ghost use Rattle.std.specs.Prelude.{◌≡◌, ◌≤◌, ◌+◌, [], ◌∷◌, ◌++◌, length};
ghost use Rattle.state_codec.specs.Bytes.{number_bytes, signed_bytes, count_bytes, padded, width};
ghost use Rattle.state_codec.specs.Limits.{HasRoom};

use crate::version::Version;
use std::marker::Model;

/// A sector. Its value in contracts is the written part; zeros follow it.
#[derive(Drop)]
pub(crate) struct Sector {
    bytes: [u8; 512],
    used: usize,
}

impl Model for Sector {
    ghost use Rattle.std.specs.Prelude.{List, ℕ};

    ghost Value = { List ℕ };

    ghost use Rattle.state_codec.specs.Sector.{used_bytes, IsPadded};

    ghost view = { used_bytes };

    ghost invariant = { IsPadded };
}

impl Sector {
    pub(crate) fn new() -> Sector
        ensures { result ≡ [] }
    {
        Sector {
            bytes: [0; 512],
            used: 0,
        }
    }

    pub(crate) fn into_bytes(self) -> [u8; 512]
        ensures { result ≡ padded self }
    {
        let Sector { bytes, used: _ } = self;
        bytes
    }

    fn put(&mut self, text: &[u8])
        requires { length self.old + length text.now ≤ 512 }
        ensures text { self.new ≡ self.old ++ text.now }
        ensures len { length self.new ≡ length self.old + length text.now }
    {
        let end = self.used + text.len();
        self.bytes[self.used..end].copy_from_slice(text);
        self.used = end;
    }

    pub(crate) fn put_u8(&mut self, n: u8)
        requires { length self.old + 1 ≤ 512 }
        ensures text { self.new ≡ self.old ++ n ∷ [] }
        ensures len { length self.new ≡ length self.old + 1 }
    {
        self.put(&[n]);
    }

    #[tactic(auto, unfolding(crate::specs::Bytes::number_bytes))]
    pub(crate) fn put_u16(&mut self, n: u16)
        requires { length self.old + 2 ≤ 512 }
        ensures text { self.new ≡ self.old ++ number_bytes 2 n }
        ensures len { length self.new ≡ length self.old + 2 }
    {
        self.put(&n.to_be_bytes());
    }

    #[tactic(auto, unfolding(crate::specs::Bytes::number_bytes))]
    pub(crate) fn put_u32(&mut self, n: u32)
        requires { length self.old + 4 ≤ 512 }
        ensures text { self.new ≡ self.old ++ number_bytes 4 n }
        ensures len { length self.new ≡ length self.old + 4 }
    {
        self.put(&n.to_be_bytes());
    }

    #[tactic(auto, unfolding(crate::specs::Bytes::number_bytes))]
    pub(crate) fn put_u64(&mut self, n: u64)
        requires { length self.old + 8 ≤ 512 }
        ensures text { self.new ≡ self.old ++ number_bytes 8 n }
        ensures len { length self.new ≡ length self.old + 8 }
    {
        self.put(&n.to_be_bytes());
    }

    #[tactic(auto, unfolding(crate::specs::Bytes::signed_bytes))]
    pub(crate) fn put_i32(&mut self, n: i32)
        requires { length self.old + 4 ≤ 512 }
        ensures text { self.new ≡ self.old ++ signed_bytes n }
        ensures len { length self.new ≡ length self.old + 4 }
    {
        self.put(&n.to_be_bytes());
    }

    /// Writes a number that fits into the bytes of the version.
    pub(crate) fn put_count(&mut self, version: Version, n: u32)
        requires space { length self.old + width version ≤ 512 }
        requires fits { HasRoom version n }
        ensures text { self.new ≡ self.old ++ count_bytes version n }
        ensures len { length self.new ≡ length self.old + width version }
    {
        match version {
            Version::One => self.put_u16(n as u16),
            Version::Two => self.put_u32(n),
        }
    }
}
