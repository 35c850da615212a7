//! Orders of the script to the broker's keeper, and their outcome.

ghost use Rattle.std.specs.Prelude.{◌≡◌};
ghost use Rattle.wl_process_rules.specs.BrokerOrders.{no_orders, in_phase, is_news, asked, outcome_of, up_as, is_there, rested, is_missed, next_phase, ending, failure_in, is_starting, is_stopping};
ghost use Rattle.wl_process_rules.specs.declared.broker_orders.Phase.TheVariants.{Stopping, Failed};

use wl_process::ProcessFault;

/// Phase of the broker's life.
#[derive(Clone, Copy, Debug, PartialEq, Eq)]
pub enum Phase {
    /// No broker is wanted.
    Idle,
    /// A broker is to be started.
    Starting,
    /// The broker of this generation runs.
    Up(u32),
    /// The broker was stopped, and its process has not yet ended.
    Stopping,
    /// The last generation has ended, and no broker will run again.
    Spent,
    /// No broker can be started.
    Failed(ProcessFault),
}

/// Orders of the script to the keeper, and their outcome.
#[derive(Clone, Copy, Debug, PartialEq, Eq)]
pub struct BrokerOrders {
    pub phase: Phase,
    /// The first generation that came up after the last start order.
    pub started: Option<u32>,
    /// Whether the kernel is ending.
    pub is_ending: bool,
}

impl BrokerOrders {
    /// Returns the state before any order.
    pub fn new() -> BrokerOrders
        ensures { result ≡ no_orders }
    {
        BrokerOrders {
            phase: Phase::Idle,
            started: None,
            is_ending: false,
        }
    }

    /// Orders a broker. Returns false if one is wanted already. Fails if no broker can be started.
    pub fn start(&mut self) -> Result<bool, ProcessFault>
        ensures news { result ≡ is_news self.old.phase }
        ensures orders { self.new ≡ asked self.old }
    {
        match self.phase {
            Phase::Idle => {
                self.phase = Phase::Starting;
                self.started = None;
                Ok(true)
            }
            Phase::Failed(fault) => Err(fault),
            _ => Ok(false),
        }
    }

    /// Returns the outcome of the last start order once there is one: the first generation since, or the failure.
    pub fn outcome(&self) -> Option<Result<u32, ProcessFault>>
        ensures { result ≡ outcome_of self.now.started self.now.phase }
    {
        match (self.started, self.phase) {
            (Some(generation), _) => Some(Ok(generation)),
            (None, Phase::Failed(fault)) => Some(Err(fault)),
            (None, _) => None,
        }
    }

    /// Returns whether there is a broker to stop. Fails if no broker can be started.
    pub fn may_stop(&self) -> Result<bool, ProcessFault>
        ensures { result ≡ is_there self.now.phase }
    {
        match self.phase {
            Phase::Idle => Ok(false),
            Phase::Failed(fault) => Err(fault),
            _ => Ok(true),
        }
    }

    /// Records that the script has stopped the broker, whose process is to end.
    pub fn stop(&mut self)
        ensures { self.new ≡ in_phase Stopping self.old }
    {
        self.phase = Phase::Stopping;
    }

    /// Records that the kernel is ending.
    pub fn end(&mut self)
        ensures { self.new ≡ ending self.old }
    {
        self.is_ending = true;
    }

    /// Returns whether a broker is to be started.
    pub fn is_starting(&self) -> bool
        ensures { result ≡ is_starting self.now.phase }
    {
        matches!(self.phase, Phase::Starting)
    }

    /// Returns whether the process of a stopped broker has not yet ended.
    pub fn is_stopping(&self) -> bool
        ensures { result ≡ is_stopping self.now.phase }
    {
        matches!(self.phase, Phase::Stopping)
    }

    /// Records that the broker of this generation is up.
    pub fn note_up(&mut self, generation: u32)
        ensures { self.new ≡ up_as generation self.old }
    {
        self.phase = Phase::Up(generation);
        self.started = self.started.or(Some(generation));
    }

    /// Returns whether the end of this generation's link means that its broker is to be stopped and the next one started.
    pub fn is_missed(&self, generation: u32) -> bool
        ensures { result ≡ is_missed generation self.now }
    {
        match self.phase {
            Phase::Up(other) => other == generation && !self.is_ending,
            _ => false,
        }
    }

    /// Records that the broker's generation has ended by itself. The next one is to be started, if there is one.
    pub fn note_next(&mut self, has_next: bool)
        ensures { self.new ≡ in_phase (next_phase has_next) self.old }
    {
        self.phase = if has_next {
            Phase::Starting
        } else {
            Phase::Spent
        };
    }

    /// Records that the broker's process has ended.
    pub fn note_end(&mut self)
        ensures { self.new ≡ in_phase (rested self.old.phase) self.old }
    {
        if self.is_stopping() {
            self.phase = Phase::Idle;
        }
    }

    /// Records that no broker can be started.
    pub fn fail(&mut self, fault: ProcessFault)
        ensures { self.new ≡ in_phase (Failed fault) self.old }
    {
        self.phase = Phase::Failed(fault);
    }

    /// Returns the reason for which no broker can be started, if there is one.
    pub fn failure(&self) -> Option<ProcessFault>
        ensures { result ≡ failure_in self.now.phase }
    {
        match self.phase {
            Phase::Failed(fault) => Some(fault),
            _ => None,
        }
    }
}
