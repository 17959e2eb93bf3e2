//! Bytes of parts that are dropped.
ghost use Rattle.std.specs.Prelude.{◌≡◌, ◌∷◌, [], option_map};
ghost use Rattle.std.specs.FinMap.{get};
ghost use Rattle.custody_records.specs.Keys as by;
ghost use Rattle.custody_records.specs.Keys.{part_cmp};
ghost use Rattle.custody_records.specs.Purge.{dropped_if_among};
ghost use Rattle.custody_records.specs.Tables.{table_map};
ghost use Rattle.custody_records.specs.TypedRecords.{key_of_part, part_value};

use crate::registry_rows::RowsByRegistry;
use crate::{Part, PartKey};

impl RowsByRegistry<Part> {
    ghost use Rattle.custody_records.specs.RegistryRows.{all_rows};

    /// Drops the bytes of the parts with these keys.
    pub(crate) fn drop_bytes(&mut self, keys: &[PartKey])
        ensures { (key : by.PartKey) → get (table_map part_cmp key_of_part part_value (all_rows self.new)) key
            ≡ option_map (dropped_if_among keys.now key) (get (table_map part_cmp key_of_part part_value (all_rows self.old)) key) }
    {
        for key in keys {
            self.drop_bytes_of(key);
        }
    }

    fn drop_bytes_of(&mut self, sought: &PartKey)
        ensures { (key : by.PartKey) → get (table_map part_cmp key_of_part part_value (all_rows self.new)) key
            ≡ option_map (dropped_if_among (sought.now ∷ []) key) (get (table_map part_cmp key_of_part part_value (all_rows self.old)) key) }
    {
        if let Some(part) = self.find(sought) {
            let part = Part {
                extents: None,
                ..*part
            };
            self.replace(part);
        }
    }
}
