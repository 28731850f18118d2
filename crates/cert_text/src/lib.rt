//! The text of a certificate, and its reader.
#![tactic(auto)]

mod draft;
mod fault;
mod forms;
mod guards;
mod head;
mod laws;
mod members;
mod printing;
mod progress;
mod reader;
mod starts;
mod texts;

pub use fault::{CertFault, CertKind};
pub use laws::{
    law_accepted, law_cut, law_decided, law_not_refused, law_one, law_read, law_refused_once,
};
pub use printing::print;
pub use texts::read;
