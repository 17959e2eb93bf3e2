//! Laws of texts.
ghost use Rattle.std.specs.Prelude.{◌≡◌, ℕ, List, All};
ghost use Rattle.dnrd_csv.specs.Readers.{IsTableReader};
ghost use Rattle.dnrd_csv.specs.Text.{IsRow, IsTextOf, table_text};

/// Rows in form have one text, which no other rows have, and no bytes are the text of two lists of rows.
#[tactic(auto, using(crate::proofs::Records::one_text, crate::proofs::Tables::one_reading))]
pub fn law_one_text()
    ensures text { (xs ys : List (List (List ℕ))) → All IsRow xs → All IsRow ys → table_text xs ≡ table_text ys → xs ≡ ys }
    ensures reading { (bytes : List ℕ) (xs ys : List (List (List ℕ))) → IsTextOf bytes xs → IsTextOf bytes ys → xs ≡ ys }
{}

/// The rows of a table as a function of the bytes: they are read just where the bytes are their text and they are in
/// form, and nothing is read of other bytes.
#[tactic(auto, using(crate::proofs::TableReading::is_table_reader))]
pub fn law_table_reader()
    ensures { IsTableReader }
{}
