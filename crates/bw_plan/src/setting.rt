//! What is set in place of what a file has.
ghost use Rattle.std.specs.Prelude.{◌≡◌};
ghost use Rattle.bw_plan.specs.Recordings.{Field, History};
ghost use Rattle.bw_plan.specs.Settings.{setting_meaning};

use std::marker::Model;

/// A value that takes the place of the file's.
#[derive(Debug, Drop)]
pub struct Setting {
    owned: Owned,
}

#[derive(Debug, Drop)]
enum Owned {
    Field { tag: u8, value: Vec<u8> },
    History { bytes: Vec<u8> },
}

/// A setting that borrows its bytes.
#[derive(Clone, Copy, Debug, PartialEq, Eq)]
pub enum SettingRef<'a> {
    /// A field of `bext`: its tag from 1 on, its value as a message carries it.
    Field { tag: u8, value: &'a [u8] },
    /// The coding history.
    History { bytes: &'a [u8] },
}

impl Model for Setting {
    ghost use Rattle.bw_plan.specs.Recordings.{Setting as SettingOf};
    ghost use Rattle.bw_plan.specs.OwnedSettings.{owned_setting};

    ghost Value = { SettingOf };

    ghost view = { λ s. owned_setting s.owned };
}

impl Setting {
    /// A field of `bext`: its tag from 1 on, its value as a message carries it.
    pub fn field(tag: u8, value: Vec<u8>) -> Setting
        ensures { result ≡ Field tag value.items }
    {
        Setting {
            owned: Owned::Field { tag, value },
        }
    }

    /// The coding history.
    pub fn history(bytes: Vec<u8>) -> Setting
        ensures { result ≡ History bytes.items }
    {
        Setting {
            owned: Owned::History { bytes },
        }
    }

    /// The same setting, borrowed.
    pub fn as_ref(&self) -> SettingRef<'_>
        ensures { setting_meaning result ≡ self.now }
    {
        match &self.owned {
            Owned::Field { tag, value } => SettingRef::Field {
                tag: *tag,
                value: value.as_slice(),
            },
            Owned::History { bytes } => SettingRef::History {
                bytes: bytes.as_slice(),
            },
        }
    }
}
