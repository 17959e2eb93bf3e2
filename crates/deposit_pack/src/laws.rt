//! What holds of every deposit that is packed.
ghost use Rattle.deposit_pack.specs.Packable.{IsPackingLaw};
ghost use Rattle.deposit_pack.specs.PackErrors.{AreRefusals};
ghost use Rattle.deposit_pack.specs.Unpacking.{IsUnpackingLaw};

use deposit_verify::law_pass;
use dnrd_csv::law_table_reader;
use envelope::law_one_reading;

/// What may be packed passes, and no other deposit of the same objects does.
pub fn law_packing()
    ensures { IsPackingLaw }
{
    law_one_reading();
    law_table_reader();
    law_pass();
}

/// What is refused for its attributes or its objects may not be packed.
pub fn law_refusals()
    ensures { AreRefusals }
{}

/// What is packed is unpacked as the rows that were packed, in their one spelling, byte for byte.
pub fn law_packed()
    ensures { IsUnpackingLaw }
{
    law_one_reading();
}
