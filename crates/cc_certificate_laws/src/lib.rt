//! What is written as the certificate of a derivation is read back and judged to be valid, accepted definitions of modules
//! stay within the limits of certificates, and the laws of this, without code.
#![tactic(auto)]

pub mod certificate_laws;
pub mod judged_certificates;
pub mod limit_laws;
