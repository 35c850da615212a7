//! State shared by the kernel's threads.
//!
//! Locks are taken in the order of the fields of `SharedKernel`. During a device call a thread holds no
//! locks but those of `link` and `broker`. The one exception is the Start frame, which is written
//! under the supervisor's lock and always fits into a fresh socket.

ghost use Rattle.std.specs.Prelude.{◌≡◌, [], IfOk, OnOk, IfErr, OnErr};
ghost use Rattle.wl_grammar.specs.Grammar.{IsTab};
ghost use Rattle.wl_kernel.specs.Routes.{IsWellRouted};
ghost use Rattle.wl_process_kernel.specs.Gathered.{left_by, gathered_after};
ghost use Rattle.wl_process_rules.specs.RunningKernel.{IsSentOn, IsRefusedBy};

mod broker_orders;

use crate::child_link::Watched;
pub(crate) use crate::shared_kernel::broker_orders::Stop;
use crate::tab_outbox::{OutboxConsumer, TabOutbox};
use std::alloc::{AllocError, Global};
use std::collections::BTreeMap;
use std::io::Write;
use std::net::Shutdown;
use std::os::unix::net::UnixStream;
use std::process::Child;
use std::sync::{Arc, Condvar, Mutex, Wait};
use wl_board::board::SEAT_LIMIT;
use wl_board::{Birth, Board};
use wl_frames::{Frame, Hello};
use wl_kernel::{Origins, RouteFault, Routed, RoutedDown, RoutedUp, Supervisor};
use wl_limits::brokers::LAST_GENERATION;
use wl_limits::tabs::LAST_TAB;
use wl_origin::Partition;
use wl_process::{Host, ProcessFault, append};
use wl_process_rules::{BrokerOrders, DeathNotice, Ends, OpenError, fault_of_start, late_hello};
use wl_workers::BoardSeat;

/// The writing end of the current broker's link.
#[derive(Drop)]
struct Link {
    generation: u32,
    stream: Arc<UnixStream>,
}

impl Link {
    /// Writes bytes, and shuts the link down if that fails. A failed write may lose a tab's death,
    /// so the broker's generation must not go on.
    fn write_or_end(&self, bytes: &[u8]) {
        let mut writer = &*self.stream;
        if writer.write_all(bytes).is_err() {
            let _ = self.stream.shutdown(Shutdown::Both);
        }
    }
}

/// The current broker's process and its link, kept to end both.
#[derive(Drop)]
pub(crate) struct BrokerProcess {
    child: Child,
    link: Arc<UnixStream>,
}

impl BrokerProcess {
    pub(crate) fn new(child: Child, link: Arc<UnixStream>) -> BrokerProcess {
        BrokerProcess { child, link }
    }

    /// Kills the process and shuts its link down, which wakes threads blocked on the link.
    fn stop(&mut self) {
        let _ = self.child.kill();
        let _ = self.link.shutdown(Shutdown::Both);
    }

    /// Stops the process and waits for it.
    pub(crate) fn end(mut self) {
        self.stop();
        let _ = self.child.wait();
    }

    fn has_ended(&mut self) -> bool {
        matches!(self.child.try_wait(), Ok(Some(_)))
    }
}

/// Access to the current broker's process.
#[derive(Drop)]
pub(crate) struct CurrentBroker<'a> {
    pub(crate) shared: &'a SharedKernel,
}

impl Watched for CurrentBroker<'_> {
    fn has_ended<R: Wait>(&self, rt: &R) -> bool {
        match &mut *self.shared.broker.lock(rt) {
            Some(process) => process.has_ended(),
            None => false,
        }
    }
}

/// A tab that was opened but whose process has not been started.
#[derive(Drop)]
pub(crate) struct Opened {
    pub(crate) tab: u16,
    pub(crate) tab_outbox: Arc<TabOutbox>,
    pub(crate) consumer: OutboxConsumer,
    /// The notice of the tab's death for the broker.
    pub(crate) death: DeathNotice,
}

impl Opened {
    /// Creates the state of a tab in this partition, with an empty outbox.
    fn new(alloc: Global, tab: u16, partition: u16) -> Result<Opened, AllocError>
        requires { IsTab tab }
        ensures tab { IfOk result (λ o. o.tab ≡ tab) }
        ensures death { IfOk result (λ o. o.death ≡ o.tab) }
    {
        let death = DeathNotice::new(alloc, tab)?;
        let (tab_outbox, consumer) = TabOutbox::new(alloc, partition, tab)?;
        let tab_outbox = Arc::new(alloc, tab_outbox)?;
        Ok(Opened {
            tab,
            tab_outbox,
            consumer,
            death,
        })
    }
}

#[derive(Drop)]
pub(crate) struct SharedKernel {
    alloc: Global,
    orders: Mutex<BrokerOrders>,
    ordered: Condvar,
    pub(crate) supervisor: Mutex<Supervisor>,
    pub(crate) outboxes: Mutex<BTreeMap<u16, Arc<TabOutbox>>>,
    link: Mutex<Option<Link>>,
    broker: Mutex<Option<BrokerProcess>>,
    seats: Vec<Arc<Mutex<BoardSeat>>>,
    pub(crate) ends: Mutex<Ends>,
    pub(crate) ended: Condvar,
}

impl SharedKernel {
    pub(crate) fn new(alloc: Global) -> Result<SharedKernel, AllocError> {
        let Ok((board, places)) = Board::new(alloc, LAST_TAB, SEAT_LIMIT) else {
            return Err(AllocError);
        };
        let board = Arc::new(alloc, board)?;
        let mut seats = Vec::new(alloc);
        for seat in places {
            let seat = BoardSeat::new(Arc::try_clone(&board)?, seat);
            seats.push(Arc::new(alloc, Mutex::new(seat))?)?;
        }
        Ok(SharedKernel {
            alloc,
            orders: Mutex::new(BrokerOrders::new()),
            ordered: Condvar::new(),
            supervisor: Mutex::new(Supervisor::new(alloc, LAST_GENERATION)),
            outboxes: Mutex::new(BTreeMap::new(alloc)),
            link: Mutex::new(None),
            broker: Mutex::new(None),
            seats,
            ends: Mutex::new(Ends::new(alloc)),
            ended: Condvar::new(),
        })
    }

    /// Returns the board seat with which threads look whether this tab lives. Several tabs share a seat.
    pub(crate) fn liveness_seat(&self, tab: u16) -> Result<Arc<Mutex<BoardSeat>>, AllocError> {
        match self.seats.get(usize::from(tab % SEAT_LIMIT)) {
            Some(seat) => Arc::try_clone(seat),
            None => Err(AllocError),
        }
    }

    // Tabs

    /// Draws a tab number, opens the tab and sends it a welcome. Sends a Hello too if a broker is
    /// up.
    pub(crate) fn open<R: Host>(
        &self,
        rt: &R,
        partition: Partition,
        is_pair: bool,
    ) -> Result<Opened, OpenError>
        ensures tab { IfOk result (λ o. IsTab o.tab) }
        ensures death { IfOk result (λ o. o.death ≡ o.tab) }
    {
        let origins = Origins::new(self.alloc, &partition, is_pair)?;
        let mut supervisor = self.supervisor.lock(rt);
        let (tab, number) = self.enter(rt, &mut supervisor, partition)?;
        let opened = self.begin(rt, tab, number)?;
        opened.tab_outbox.put(rt, number, origins.welcome(tab));
        if let Some(generation) = supervisor.current() {
            opened
                .tab_outbox
                .put(rt, number, Frame::Hello(Hello { generation }));
        }
        drop(supervisor);
        Ok(opened)
    }

    /// Starts the life of a tab in this partition: it gets an outbox, and its end can be waited
    /// for.
    fn begin<R: Wait>(&self, rt: &R, tab: u16, partition: u16) -> Result<Opened, AllocError>
        requires { IsTab tab }
        ensures tab { IfOk result (λ o. o.tab ≡ tab) }
        ensures death { IfOk result (λ o. o.death ≡ o.tab) }
    {
        let opened = Opened::new(self.alloc, tab, partition)?;
        self.ends.lock(rt).begin(tab)?;
        self.keep_outbox(rt, tab, &opened.tab_outbox)?;
        Ok(opened)
    }

    fn keep_outbox<R: Wait>(
        &self,
        rt: &R,
        tab: u16,
        tab_outbox: &Arc<TabOutbox>,
    ) -> Result<(), AllocError> {
        let tab_outbox = Arc::try_clone(tab_outbox)?;
        let _new = self.outboxes.lock(rt).insert(tab, tab_outbox)?;
        Ok(())
    }

    /// Draws a tab number, adds the tab to the table and brings it to life on the board. Returns
    /// the tab and its partition's number.
    fn enter<R: Host>(
        &self,
        rt: &R,
        supervisor: &mut Supervisor,
        partition: Partition,
    ) -> Result<(u16, u16), OpenError>
        ensures { IfOk result (λ r. IsTab r.0) }
    {
        let Some(drawing) = self.seats.first() else {
            return Err(OpenError::TabsUsedUp);
        };
        let mut guard = drawing.lock(rt);
        let seat = &mut *guard;
        let Ok(ticket) = seat.draw() else {
            return Err(OpenError::TabsUsedUp);
        };
        let tab = ticket.tab();
        let number = supervisor.open(tab, partition)?;
        match seat.birth(ticket) {
            Birth::Born | Birth::WasDead => {}
        }
        Ok((tab, number))
    }

    fn outbox_of<R: Wait>(&self, rt: &R, tab: u16) -> Option<Arc<TabOutbox>> {
        match self.outboxes.lock(rt).get(&tab) {
            Some(tab_outbox) => Arc::try_clone(tab_outbox).ok(),
            None => None,
        }
    }

    /// Puts a frame from this partition into a tab's outbox.
    fn put<R: Wait>(&self, rt: &R, tab: u16, partition: u16, frame: Frame) {
        match self.outbox_of(rt, tab) {
            Some(tab_outbox) => tab_outbox.put(rt, partition, frame),
            None => drop(frame),
        }
    }

    /// Forwards a frame that a tab sent. A post goes to the other tabs of the partition. Any other
    /// frame is stamped and appended to `gathered`, the frames of this tab that wait to be written to
    /// the broker. They are written before a post is forwarded.
    ///
    /// A tab that sent for an ended generation is sent a Hello of the current one.
    #[tactic(auto, using(crate::proofs::Sending::sent_behind))]
    pub(crate) fn up<R: Wait>(
        &self,
        rt: &R,
        tab: u16,
        frame: Frame,
        gathered: &mut Vec<u8>,
    ) -> Result<(), RouteFault>
        ensures sent { OnOk result
            (IsSentOn tab frame (left_by frame gathered.old.items) gathered.new.items) }
        ensures refused { IfErr result (IsRefusedBy tab frame) }
        ensures err { OnErr result (gathered.new.items ≡ gathered.old.items) }
    {
        let sent = self.supervisor.lock(rt).route_up(tab, frame)?;
        self.pass_on(rt, tab, sent, gathered)?;
        Ok(())
    }

    /// Forwards a routed frame.
    fn pass_on<R: Wait>(
        &self,
        rt: &R,
        tab: u16,
        sent: RoutedUp,
        gathered: &mut Vec<u8>,
    ) -> Result<(), AllocError>
        ensures passed { IsWellRouted sent.routed
            → OnOk result (gathered.new.items ≡ gathered_after gathered.old.items sent.routed) }
        ensures err { OnErr result (gathered.new.items ≡ gathered.old.items) }
    {
        let RoutedUp {
            routed,
            partition,
            current,
        } = sent;
        match routed {
            Routed::Broker(frame) => {
                if let Some(hello) = late_hello(&frame, current) {
                    self.put(rt, tab, partition, hello);
                }
                append(gathered, &frame)
            }
            Routed::Tabs(heard) => {
                self.flush(rt, gathered);
                self.put_all(rt, partition, heard.into_vec(), gathered.as_slice());
                Ok(())
            }
        }
    }

    /// Puts posts from this partition into the outboxes of these tabs. None of the sender's frames
    /// may wait to be written to the broker: a tab that hears the post would overtake them.
    fn put_all<R: Wait>(&self, rt: &R, partition: u16, heard: Vec<(u16, Frame)>, _gathered: &[u8])
        requires { _gathered.now ≡ [] }
    {
        for (target, frame) in heard {
            self.put(rt, target, partition, frame);
        }
    }

    /// Puts a frame from the broker of this generation into its tab's outbox. A refused frame is
    /// lost.
    pub(crate) fn down<R: Wait>(&self, rt: &R, generation: u32, frame: Frame) {
        let delivered = self.supervisor.lock(rt).route_down(generation, frame);
        if let Ok(
            RoutedDown {
                tab,
                partition,
                frame,
            },
        ) = delivered
        {
            self.put(rt, tab, partition, frame);
        }
    }

    /// Waits until the tab's death has been announced.
    pub(crate) fn wait_for_end<R: Host>(&self, rt: &R, tab: u16) {
        let _ends = self
            .ended
            .wait_while(rt, self.ends.lock(rt), |ends| ends.is_running(tab));
    }

    /// Waits until the deaths of all tabs have been announced. Returns the tabs whose ends have not been reported.
    pub(crate) fn wait_for_all<R: Host>(&self, rt: &R) -> Result<Vec<(u16, u8)>, AllocError> {
        let mut ends = self
            .ended
            .wait_while(rt, self.ends.lock(rt), |ends| ends.is_any_running());
        ends.tell(self.alloc)
    }

    /// Drops a tab's end, so that it will not be reported.
    pub(crate) fn forget_end<R: Host>(&self, rt: &R, tab: u16) {
        self.ends.lock(rt).forget(tab);
    }

    /// Returns true if the tab's process runs.
    pub(crate) fn is_running<R: Host>(&self, rt: &R, tab: u16) -> bool {
        self.ends.lock(rt).is_running(tab)
    }

    // The broker's link

    /// Writes to the current broker, if there is one. A failed write shuts the link down. The
    /// keeper then reads the end of the link and starts the next generation with the living tabs.
    pub(crate) fn write<R: Wait>(&self, rt: &R, bytes: &[u8]) {
        if bytes.is_empty() {
            return;
        }
        if let Some(link) = &*self.link.lock(rt) {
            link.write_or_end(bytes);
        }
    }

    /// Writes the frames that a tab's reader has gathered, and clears them. They are lost if no broker
    /// is up.
    pub(crate) fn flush<R: Wait>(&self, rt: &R, gathered: &mut Vec<u8>)
        ensures { gathered.new.items ≡ [] }
    {
        self.write(rt, gathered.as_slice());
        gathered.clear();
    }

    /// Returns the generation of the running broker, or of the next one.
    pub(crate) fn generation<R: Wait>(&self, rt: &R) -> u32 {
        self.supervisor.lock(rt).generation()
    }

    /// Starts the next generation over this link, and sends the Start frame first.
    pub(crate) fn install<R: Host>(
        &self,
        rt: &R,
        stream: Arc<UnixStream>,
    ) -> Result<u32, ProcessFault> {
        let mut supervisor = self.supervisor.lock(rt);
        let mut bytes = Vec::new(self.alloc);
        let (generation, appended) = start(&mut supervisor, &mut bytes)?;
        self.set_link(rt, Link { generation, stream }, bytes.as_slice());
        drop(supervisor);
        appended?;
        Ok(generation)
    }

    /// Makes this the current broker's link and writes `bytes` to it first. Shuts the link down if
    /// that fails, as `write` does.
    fn set_link<R: Host>(&self, rt: &R, current: Link, bytes: &[u8]) {
        let mut link = self.link.lock(rt);
        current.write_or_end(bytes);
        *link = Some(current);
    }

    /// Removes the link of this generation's broker.
    pub(crate) fn uninstall<R: Host>(&self, rt: &R, generation: u32) {
        let mut link = self.link.lock(rt);
        let is_installed = match &*link {
            Some(link) => link.generation == generation,
            None => false,
        };
        if is_installed {
            *link = None;
        }
    }

    /// Records the current broker's process.
    pub(crate) fn hold<R: Host>(&self, rt: &R, process: BrokerProcess) {
        *self.broker.lock(rt) = Some(process);
    }

    /// Takes the current broker's process, if any.
    pub(crate) fn let_go<R: Host>(&self, rt: &R) -> Option<BrokerProcess> {
        self.broker.lock(rt).take()
    }

    /// Kills the current broker's process and shuts its link down, even while a write to it blocks.
    fn hang_up<R: Host>(&self, rt: &R) {
        if let Some(process) = &mut *self.broker.lock(rt) {
            process.stop();
        }
    }
}

/// Starts the next generation, appends its Start frame if memory allows, and returns its number.
fn start(
    supervisor: &mut Supervisor,
    bytes: &mut Vec<u8>,
) -> Result<(u32, Result<(), AllocError>), ProcessFault> {
    let (generation, frame) = supervisor.start_with_living().map_err(fault_of_start)?;
    let appended = append(bytes, &frame);
    drop(frame);
    Ok((generation, appended))
}
