//! What a batch does, as calls of a custody.
ghost use Rattle.agent_program.specs.BatchCalls.{BatchesAreCalls};
ghost use Rattle.agent_program.specs.ExampleBatch.{BatchesHappen};

use agent_cli::law_orders;
use custody::Custody;
use sqlite::Alter;
use vault_volume::Volume;

/// A batch is calls of the custody, in order: those of its lines' orders, in their turn, each as
/// `theorems::law_acts` says of a deed. So a life may consist of batches, and `law_lives` holds of them.
pub fn law_batch<V: Volume, S: Alter>(old: &Custody<V, S>, new: &Custody<V, S>)
    ensures calls { BatchesAreCalls S.Store old.now new.now }
    ensures happen { BatchesHappen }
{
    law_orders();
}
