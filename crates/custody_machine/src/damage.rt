//! What may be wrong with a database and a volume.
use std::fmt;

/// What is wrong with a database and a volume that are opened: the first of the first eight that is.
/// The last is told of a part alone.
#[derive(Clone, Copy, Debug, PartialEq, Eq, Hash)]
pub enum Damage {
    /// There is no table `meta`, or no row in it.
    NoRecord,
    /// Block 0 is not in its form.
    Head,
    /// The volume has another number or size than the database says.
    Volume,
    /// The number of the schema is not known.
    Schema,
    /// A table is not there, or a field is out of its form.
    Form,
    /// An extent is out of range or has no blocks, or the counts of a part's extents do not add up.
    Extent,
    /// A block is named twice.
    Overlap,
    /// Records do not belong together.
    Link,
    /// The bytes of a part have not the recorded digest.
    Digest,
}

impl fmt::Display for Damage {
    ghost use Rattle.std.specs.Prelude.{Some};
    ghost use Rattle.custody_machine.specs.Texts.{damage_text};

    ghost output = { λ d. Some (damage_text d) };

    fn fmt<W: fmt::Write>(&self, f: &mut fmt::Formatter<W>) -> fmt::Result {
        f.write_str(match self {
            Damage::NoRecord => "H0",
            Damage::Head => "H1",
            Damage::Volume => "H2",
            Damage::Schema => "H3",
            Damage::Form => "H4",
            Damage::Extent => "H5",
            Damage::Overlap => "H6",
            Damage::Link => "H7",
            Damage::Digest => "H8",
        })
    }
}
