//! Transfers of zones: whole (AXFR, RFC 5936), or by their changes (IXFR, RFC 1995).
#![tactic(auto)]

mod filling;
mod form;
mod history;
pub mod laws;
mod refusal;
mod session;
mod unsent;

pub use form::{Form, choose_form};
pub use history::History;
pub use refusal::{client_serial, refusal_of};
pub use session::{Session, Version};
pub use unsent::{Place, Rest};
