//! A device's identity: the SHA-256 of its X.509 certificate, which stands in the text of a PEM file.
#![tactic(auto)]

mod fault;
mod identity;
pub mod laws;
mod lines;

pub use fault::CertificateFault;
pub use identity::certificate_identity;
