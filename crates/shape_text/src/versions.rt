//! What the texts of a version may have.

ghost use Rattle.std.specs.Prelude.{◌≡◌};
ghost use Rattle.shape_text.specs.Parts as spec;

/// Whether texts of the version may have walls.
pub fn may_have_walls(version: u8) -> bool
    ensures { result ≡ spec.may_have_walls version }
{
    version >= 2
}

/// Whether the journal of texts of the version has old values.
pub fn has_old_values(version: u8) -> bool
    ensures { result ≡ spec.has_old_values version }
{
    version >= 3
}
