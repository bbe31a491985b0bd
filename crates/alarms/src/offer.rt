// Alarms offered one after another.
ghost use Rattle.alarms.specs.Offers.{Ends, QuotasTake, QuotasKeep};

use crate::alarm::Alarm;
use crate::sink::Sink;
use faults::fault::Fault;

/// How many of the alarms offered were taken, and the fault by which the next was refused.
#[derive(Clone, Copy, Debug, PartialEq, Eq)]
pub struct Untaken {
    pub taken: usize,
    pub fault: Fault,
}

/// Offers alarms in order, until one is refused.
pub fn offer<K: Sink>(sink: &mut K, alarms: &[Alarm]) -> Result<(), Untaken>
    ensures run { Ends K.Sink sink.old alarms.now sink.new result }
    ensures quotas { QuotasTake K.Sink }
    ensures kept { QuotasKeep K.Sink }
{
    for (taken, alarm) in alarms.iter().enumerate() {
        if let Err(fault) = sink.take(*alarm) {
            return Err(Untaken { taken, fault });
        }
    }
    Ok(())
}
