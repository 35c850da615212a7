//! Pure decisions of the processes, and the script languages of the kernel and of tabs.
//!
//! They cover the kernel's supervisor and the frames that it sends, restarts of the broker, the order of its output, the ends of
//! processes, and the pace and patience of tabs.
#![tactic(auto)]

pub mod broker_orders;
pub mod broker_restarts;
pub mod counter_file;
pub mod exit_status;
pub mod kernel_laws;
pub mod kernel_line;
pub mod kernel_reply;
pub mod laws;
pub mod looks;
pub mod notices;
pub mod open_refusals;
pub mod owed_hello;
pub mod patience;
pub mod read_turns;
pub mod script_laws;
pub mod shard_output;
pub mod start_fault;
pub mod tab_ends;
pub mod tab_line;
pub mod tab_pace;

pub use broker_orders::{BrokerOrders, Phase};
pub use broker_restarts::Restarts;
pub use counter_file::{count_of, put_count};
pub use exit_status::status_of;
pub use kernel_laws::{law_orders, law_owed_hello};
pub use kernel_line::{KernelLine, read_kernel_line};
pub use kernel_reply::KernelReply;
pub use looks::{LOOK_INTERVAL, is_look_due};
pub use notices::{DeathNotice, is_beyond_hello, late_hello};
pub use open_refusals::{OpenError, unopened_reply, unread_reply};
pub use owed_hello::{OwedHello, greeting_of};
pub use patience::{Next, Patience};
pub use read_turns::Dealt;
pub use shard_output::{ShardOutput, law_shard_output};
pub use start_fault::fault_of_start;
pub use tab_ends::Ends;
pub use tab_line::{TabLine, read_tab_line};
pub use tab_pace::{Load, Pace};
