//! What a seal says before the files of the report are read.
ghost use Rattle.std.specs.Prelude.{◌≡◌, None, Some};
ghost use Rattle.dsr_command.specs.LayoutFile.{sealing_of};

use dsr_seal::Digest;

/// A seal that is asked for.
#[derive(Drop)]
pub struct Sealing {
    /// The digest of the layout's bytes, if a layout is named.
    pub layout: Option<Digest>,
}

/// The seal that is asked for, if one is, of a report that is read by the layout of these bytes.
pub(crate) fn sealing_over(seal: bool, layout: &[u8]) -> Option<Sealing>
    ensures { result ≡ sealing_of seal (Some layout.now) }
{
    if seal {
        Some(Sealing {
            layout: Some(Digest::of(layout)),
        })
    } else {
        None
    }
}

/// The same of a report that is read by the standard layout.
pub(crate) fn sealing_without(seal: bool) -> Option<Sealing>
    ensures { result ≡ sealing_of seal None }
{
    if seal {
        Some(Sealing { layout: None })
    } else {
        None
    }
}
