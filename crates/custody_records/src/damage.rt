//! What may be wrong with rows.

/// What is wrong with the rows of a database.
#[derive(Clone, Copy, Debug, PartialEq, Eq)]
pub enum RowDamage {
    /// The number of the schema is not known.
    Schema,
    /// A table is not there, or a field is out of its form.
    Form,
}
