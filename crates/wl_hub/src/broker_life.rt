//! Start and restart of the broker.

ghost use Rattle.std.specs.Prelude.{◌≡◌, false, OnOk, Err};
ghost use Rattle.wl_kernel.specs.Kernel.{may_stop};
ghost use Rattle.wl_hub.specs.Hub.{hub_down, hub_restarted};
ghost use Rattle.wl_hub.specs.Stored.{is_stop};
ghost use Rattle.wl_hub.specs.declared.fault.RestartFault.TheVariants as faults;

use crate::fault::RestartFault;
use crate::hub::Hub;
use wl_world_messages::Effect;

impl Hub {
    /// Starts the broker of the next generation with all living tabs. A broker that is up is stopped
    /// first: it has lost its state. If out of memory, no broker is up, and the caller has to call again.
    #[tactic(auto, using(crate::proofs::Stopping::last_generation, crate::proofs::Stopping::stays))]
    pub fn restart(&mut self) -> Result<(), RestartFault>
        ensures ok { OnOk result (self.new ≡ hub_restarted self.old) }
        ensures memory { result ≡ Err faults.Memory → self.new ≡ hub_down self.old }
        ensures last { result ≡ Err faults.GenerationsUsedUp → may_stop self.old.supervised.kernel ≡ false }
        ensures used_up { result ≡ Err faults.GenerationsUsedUp → self.new ≡ self.old }
    {
        if self.supervised.is_up() {
            let said = self.supervised.stop();
            let is_stopped = is_stop(&said);
            drop(said);
            if !is_stopped {
                return Err(RestartFault::GenerationsUsedUp);
            }
        }
        self.outputs.make_room()?;
        let listed = self.supervised.tabs().living().to_vec(self.alloc)?;
        let outcome = self.supervised.start(self.alloc, listed.as_slice())?;
        self.outputs.put_outs(outcome.outs);
        Ok(())
    }
}

/// Returns whether the reply says that a broker was stopped.
fn is_stop(said: &Effect) -> bool
    ensures { result ≡ is_stop said.now }
{
    matches!(said, Effect::Stopped { .. })
}
