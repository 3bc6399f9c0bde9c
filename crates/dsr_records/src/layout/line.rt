//! A line of a layout: the record type that stands for a kind, and the positions of its columns.
ghost use Rattle.std.specs.Prelude.{◌≡◌, ◌≤◌, length};

use crate::column::MOST_COLUMNS;
use arrayvec::{ArrayString, ArrayVec};
use dsr_events::Kind;
use std::marker::Model;

/// A record type. Contracts see it as its bytes.
#[derive(Drop)]
pub(crate) struct TypeName {
    text: ArrayString<16>,
}

impl Model for TypeName {
    ghost use Rattle.std.specs.Prelude.{List, ℕ};

    ghost Value = { List ℕ };

    ghost view = { λ a. a.text.bytes };
}

impl TypeName {
    /// A record type of at most 16 bytes.
    pub(crate) fn new(name: &str) -> TypeName
        requires { length name.now ≤ 16 }
        ensures { result ≡ name.now }
    {
        let mut text = ArrayString::new();
        text.push_str(name);
        TypeName { text }
    }

    /// The text.
    pub(crate) fn as_str(&self) -> &str
        ensures { result.now ≡ self.now }
    {
        self.text.as_str()
    }

    /// An equal record type.
    pub(crate) fn copy(&self) -> TypeName
        ensures { result ≡ self.now }
    {
        TypeName { text: self.text }
    }
}

impl Default for TypeName {
    fn default() -> TypeName {
        TypeName {
            text: ArrayString::new(),
        }
    }
}

/// A line of a layout: the record type that stands for a kind, and the positions of its columns.
#[derive(Drop)]
pub(crate) struct RoleLine {
    pub(crate) kind: Kind,
    pub(crate) name: TypeName,
    pub(crate) positions: ArrayVec<Option<u8>, MOST_COLUMNS>,
}

impl Model for RoleLine {
    ghost use Rattle.dsr_records.specs.meaning.Records.{RoleLine as Line};

    ghost Value = { Line };

    ghost view = { λ a. record { kind = a.kind; name = a.name; positions = a.positions.items } };
}

impl RoleLine {
    /// An equal line.
    pub(crate) fn copy(&self) -> RoleLine
        ensures { result ≡ self.now }
    {
        RoleLine {
            kind: self.kind,
            name: self.name.copy(),
            positions: self.positions.as_slice().try_into().unwrap(),
        }
    }
}

impl Default for RoleLine {
    fn default() -> RoleLine {
        RoleLine {
            kind: Kind::Skipped,
            name: TypeName::default(),
            positions: ArrayVec::new(),
        }
    }
}
