//! Commands of the tab.

ghost use Rattle.std.specs.Prelude.{◌≡◌, ◌⊎◌, ◌++◌, ◌∷◌, [], true, false, length, Some, None, IfOk, IfErr, OnOk, OnErr, if◌then◌else◌};
ghost use Rattle.wl_agent.specs.Tab.{asked, queried, ask_refusal, query_refusal};
ghost use Rattle.wl_agent.specs.Tokens.{is_holding};
ghost use Rattle.wl_tab.specs.TabTokens.{abortion};
ghost use Rattle.wl_client.specs.Client.{after_command, after_abort, after_release, call_refusal};
ghost use Rattle.wl_client.specs.declared.client.Unsent.TheVariants as unsent_with;
ghost use Rattle.wl_client.specs.declared.fault.CallFault.TheVariants as faults;

use crate::client::{Client, Unsent};
use crate::fault::CallFault;
use wl_draft::{Mode, Name};
use wl_tab::AbortResult;

impl Client {
    /// Requests a lock and returns the command's number.
    pub fn request(&mut self, name: &Name, mode: Mode) -> Result<u32, CallFault>
        ensures ok { OnOk result (self.new ≡ after_command (asked mode false name.now) self.old) }
        ensures number { IfOk result (λ n. n ≡ length self.old.locks.issued) }
        ensures allowed { OnOk result (call_refusal (ask_refusal self.old.locks name.now) self.old ≡ None) }
        ensures refused { IfErr result (λ e. (e ≡ faults.Memory) ⊎ (call_refusal (ask_refusal self.old.locks name.now) self.old ≡ Some e)) }
        ensures err { OnErr result (self.new ≡ self.old) }
    {
        if !self.is_welcomed {
            return Err(CallFault::NotWelcomed);
        }
        self.unsent.reserve(1)?;
        let number = self.locks.request(name, mode).map_err(CallFault::of_agent)?;
        self.unsent.push_back_reserved(Unsent::Command(number));
        Ok(number)
    }

    /// Requests a lock with `ifAvailable` and returns the command's number.
    pub fn probe(&mut self, name: &Name, mode: Mode) -> Result<u32, CallFault>
        ensures ok { OnOk result (self.new ≡ after_command (asked mode true name.now) self.old) }
        ensures number { IfOk result (λ n. n ≡ length self.old.locks.issued) }
        ensures allowed { OnOk result (call_refusal (ask_refusal self.old.locks name.now) self.old ≡ None) }
        ensures refused { IfErr result (λ e. (e ≡ faults.Memory) ⊎ (call_refusal (ask_refusal self.old.locks name.now) self.old ≡ Some e)) }
        ensures err { OnErr result (self.new ≡ self.old) }
    {
        if !self.is_welcomed {
            return Err(CallFault::NotWelcomed);
        }
        self.unsent.reserve(1)?;
        let number = self.locks.probe(name, mode).map_err(CallFault::of_agent)?;
        self.unsent.push_back_reserved(Unsent::Command(number));
        Ok(number)
    }

    /// Queries the locks of the tab's partition and returns the command's number.
    pub fn query(&mut self) -> Result<u32, CallFault>
        ensures ok { OnOk result (self.new ≡ after_command queried self.old) }
        ensures number { IfOk result (λ n. n ≡ length self.old.locks.issued) }
        ensures allowed { OnOk result (call_refusal (query_refusal self.old.locks) self.old ≡ None) }
        ensures refused { IfErr result (λ e. (e ≡ faults.Memory) ⊎ (call_refusal (query_refusal self.old.locks) self.old ≡ Some e)) }
        ensures err { OnErr result (self.new ≡ self.old) }
    {
        if !self.is_welcomed {
            return Err(CallFault::NotWelcomed);
        }
        self.unsent.reserve(1)?;
        let number = self.locks.query().map_err(CallFault::of_agent)?;
        self.unsent.push_back_reserved(Unsent::Command(number));
        Ok(number)
    }

    /// Aborts a request that is not held. Returns `Held` if its lock is held, and `Nothing` if the number is
    /// not such a request.
    pub fn abort(&mut self, number: u32) -> Result<AbortResult, CallFault>
        ensures result { IfOk result (λ r. r ≡ abortion number self.old.locks) }
        ensures ok { OnOk result (self.new ≡ after_abort number self.old) }
        ensures allowed { OnOk result (call_refusal None self.old ≡ None) }
        ensures refused { IfErr result (λ e. (e ≡ faults.Memory) ⊎ (call_refusal None self.old ≡ Some e)) }
        ensures err { OnErr result (self.new ≡ self.old) }
    {
        if !self.is_welcomed {
            return Err(CallFault::NotWelcomed);
        }
        self.unsent.reserve(1)?;
        let result = self.locks.abort(number);
        if let AbortResult::Issued(next) = result {
            self.unsent.push_back_reserved(Unsent::Command(next));
        }
        Ok(result)
    }

    /// Releases a held lock. Returns the command's number, or `None` if the lock is not held.
    pub fn release(&mut self, number: u32) -> Result<Option<u32>, CallFault>
        ensures next { IfOk result (λ next. next ≡ (if is_holding self.old.locks number then Some (length self.old.locks.issued) else None)) }
        ensures ok { OnOk result (self.new ≡ after_release number self.old) }
        ensures allowed { OnOk result (call_refusal None self.old ≡ None) }
        ensures refused { IfErr result (λ e. (e ≡ faults.Memory) ⊎ (call_refusal None self.old ≡ Some e)) }
        ensures err { OnErr result (self.new ≡ self.old) }
    {
        if !self.is_welcomed {
            return Err(CallFault::NotWelcomed);
        }
        self.unsent.reserve(1)?;
        let next = self.locks.release(number);
        if let Some(next) = next {
            self.unsent.push_back_reserved(Unsent::Command(next));
        }
        Ok(next)
    }

    /// Sends the report again, if it is due, and all commands that are due. Only a link that loses
    /// frames needs this call.
    pub fn resend(&mut self) -> Result<(), CallFault>
        ensures ok { OnOk result (self.new ≡ record self.old { unsent = self.old.unsent ++ unsent_with.Resend ∷ [] }) }
        ensures allowed { OnOk result (call_refusal None self.old ≡ None) }
        ensures refused { IfErr result (λ e. (e ≡ faults.Memory) ⊎ (call_refusal None self.old ≡ Some e)) }
        ensures err { OnErr result (self.new ≡ self.old) }
    {
        if !self.is_welcomed {
            return Err(CallFault::NotWelcomed);
        }
        self.unsent.reserve(1)?;
        self.unsent.push_back_reserved(Unsent::Resend);
        Ok(())
    }
}
