use cc_base::name::Name;
use cc_core::{Node, Ty};
use cc_derivation::{Claim, Rule};
use std::alloc::{AllocError, AllocFailed};
use std::rc::Rc;

/// A node of a derivation as it is written.
#[derive(Drop)]
pub struct CertNode {
    pub rule: Rule,
    /// The numbers of the premises.
    pub premises: Vec<u32>,
    /// The number of those binders of the claim that stand under no other binder of it, where it has one.
    pub first: Option<u32>,
    /// What the node concludes. Each local variable `_d` or `_Td` is the bound variable of the number that is written,
    /// whatever it stands under.
    pub claim: Claim,
}

/// A certificate.
#[derive(Drop)]
pub struct Cert {
    /// What stands at the positions, by name and type.
    pub binds: Vec<(Name, Ty)>,
    /// The term. All its places are the first of a text.
    pub term: Rc<Node>,
    /// The nodes in post-order. Their numbers count from 1.
    pub nodes: Vec<CertNode>,
}

/// Why bytes give no certificate.
#[derive(Clone, Copy, Debug, PartialEq, Eq)]
pub enum ReadCertError {
    /// There is no memory for it.
    NoMemory,
    /// They are none. The line is the first that does not fit, or the one behind the last where all fit.
    BadCert { line: u32 },
}

impl From<AllocError> for ReadCertError {
    ghost use Rattle.std.specs.Prelude.{◌≡◌};
    ghost use Rattle.cc_certificate_reading.specs.declared.certificate.ReadCertError.TheVariants.{NoMemory};

    ghost from_gives = { λ _ error. error ≡ NoMemory };

    fn from(_error: AllocError) -> ReadCertError {
        ReadCertError::NoMemory
    }
}

impl<T: Drop> From<AllocFailed<T>> for ReadCertError {
    ghost use Rattle.std.specs.Prelude.{◌≡◌};
    ghost use Rattle.cc_certificate_reading.specs.declared.certificate.ReadCertError.TheVariants.{NoMemory};

    ghost from_gives = { λ _ error. error ≡ NoMemory };

    fn from(_error: AllocFailed<T>) -> ReadCertError {
        ReadCertError::NoMemory
    }
}
