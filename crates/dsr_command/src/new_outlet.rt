//! New files that are written.
use dsr_intake::Outlet;

/// A new file beside another, which is written.
pub trait NewOutlet: Outlet {
    ghost use Rattle.std.specs.Prelude.{List, ℕ, Option};

    /// The name under which it was created.
    ghost name: { Self → List ℕ };

    /// The bytes that were synced last, if they are known.
    ghost synced: { Self → Option (List ℕ) };
}
