//! Why a PEM file gives no device ID: no certificate, several, one without its end, or bad Base64.
use std::alloc::AllocError;
use thiserror::Error;

/// Why a file's text has no certificate that can be used. Displayed, it says what is wrong with it, as the end of a sentence about the file.
#[derive(Clone, Copy, Debug, PartialEq, Eq, Drop, Error)]
pub enum CertificateFault {
    /// No line begins a certificate.
    #[error("has no certificate: no line is -----BEGIN CERTIFICATE-----")]
    NoCertificate,
    /// No line after the one that begins the certificate ends it.
    #[error("has a certificate without its end: no line -----END CERTIFICATE----- follows")]
    Unended,
    /// Two lines or more begin a certificate.
    #[error("has more than one certificate: leave the device's own")]
    Several,
    /// What stands between the two lines is not the Base64 (RFC 4648, section 4) of one byte or more.
    #[error("has a certificate that is not Base64: the file is damaged")]
    NotBase64,
    /// The certificate's Base64 or its bytes could not be allocated.
    #[error("out of memory")]
    OutOfMemory,
}

impl From<AllocError> for CertificateFault {
    ghost use Rattle.std.specs.Prelude.{◌≡◌};
    ghost use Rattle.device_certificate.specs.declared.fault.CertificateFault.TheVariants.{OutOfMemory};

    ghost from_gives = { λ error fault. fault ≡ OutOfMemory };

    fn from(_error: AllocError) -> CertificateFault {
        CertificateFault::OutOfMemory
    }
}
