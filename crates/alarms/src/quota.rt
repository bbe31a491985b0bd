// The quota: takes so many alarms in all, over any sink.
ghost use Rattle.std.specs.Prelude.{◌≡◌, true, false, is_ok};
ghost use Rattle.std.specs.Borrow.{Lends, sem};
ghost use Rattle.alarms.specs.contracts.quota.Quota.{the_row};
ghost use Rattle.alarms.specs.Quotas.{quota_on, below_of, with_below, quota_view, quota_full, Passed, Rested, quota_over, limited_bounded, spent_refuses};
ghost use Rattle.alarms.specs.Sinks.{offered, Offered};

use crate::alarm::Alarm;
use crate::sink::Sink;
use faults::cause::Cause;
use faults::fault::{Fault, Layer};
use faults::upper::UpperFault;

/// A fault of a quota: its own, or one from below that it has handed on.
pub type QuotaFault = UpperFault;

/// A sink over another that takes no more than so many alarms in all.
#[derive(Drop)]
pub struct Quota<K> {
    below: K,
    // How many more it takes.
    left: u16,
}

impl<K: Sink> Quota<K> {
    /// A quota that took no alarm yet.
    pub fn new(below: K, quota: u16) -> Quota<K>
        ensures { result ≡ quota_on below quota }
    {
        Quota { below, left: quota }
    }

    /// The sink below.
    pub fn get_ref(&self) -> &K
        ensures { result.now ≡ below_of self.now }
    {
        &self.below
    }

    /// The sink below, for its host. What it takes past the quota is not counted here.
    pub fn get_mut(&mut self) -> &mut K
        ensures* writes_back { sem 𝓛 (Lends (the_row K.row) K.row self.entry result (with_below self.old)) }
        ensures value { result.now ≡ below_of self.old }
    {
        &mut self.below
    }

    /// The sink below, once the quota is done with.
    pub fn into_inner(self) -> K
        ensures { result ≡ below_of self }
    {
        let Quota { below, .. } = self;
        below
    }

    // An alarm for the sink below, where one of the quota's own is left.
    fn pass(&mut self, alarm: Alarm) -> Result<(), QuotaFault>
        ensures answer { result ≡
            offered (quota_view K.Sink self.old) alarm (quota_full K.Sink self.old alarm) }
        ensures view { Offered K.adds alarm
            (quota_view K.Sink self.old) (quota_view K.Sink self.new) result }
        ensures moved { is_ok result ≡ true → Passed K.Sink alarm self.old self.new }
        ensures rested { is_ok result ≡ false → Rested K.Sink alarm self.old self.new }
    {
        if self.left == 0 {
            return Err(QuotaFault::new(Layer::Quota, Cause::SinkFull));
        }
        self.below.take(alarm)?;
        self.left -= 1;
        Ok(())
    }
}

impl<K: Sink> Sink for Quota<K> {
    ghost Holding = { (quota_over K.Sink).Holding };

    ghost view = { (quota_over K.Sink).view };

    ghost adds = { (quota_over K.Sink).adds };

    ghost full = { (quota_over K.Sink).full };

    ghost moves = { (quota_over K.Sink).moves };

    ghost rests = { (quota_over K.Sink).rests };

    ghost bounded = { λ q. limited_bounded q.left (K.view q.below) (K.bounded q.below) };

    ghost refuses = { λ q a. spent_refuses q.left (K.full q.below a) (K.refuses q.below a) };

    fn take(&mut self, alarm: Alarm) -> Result<(), Fault> {
        self.pass(alarm)?;
        Ok(())
    }

    fn number(&self) -> u32 {
        self.below.number()
    }

    fn latest(&self) -> Option<Alarm> {
        self.below.latest()
    }

    fn places(&self) -> u32 {
        self.below.places().min(u32::from(self.left))
    }
}
