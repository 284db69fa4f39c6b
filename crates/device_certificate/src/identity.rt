//! The device ID of a certificate: the SHA-256 of its DER form, which is decoded from the Base64 of a PEM file.
ghost use Rattle.std.specs.Prelude.{◌≡◌, ℕ, List, ◌⊎◌, IfOk, IfErr, MatchOption, Ok, Err};
ghost use Rattle.device_certificate.specs.Lines.{lines_left};
ghost use Rattle.device_certificate.specs.Certificate.{HasCertificate, lines_after_begin, IsBase64Of, IsCertificate, IsCertificateIdentity, HasFault};
ghost use Rattle.device_certificate.specs.declared.fault.CertificateFault.TheVariants.{NoCertificate, Unended, Several, NotBase64, OutOfMemory};

use crate::CertificateFault;
use crate::lines::Lines;
use base64::DecodeAllocError;
use base64::engine::general_purpose::STANDARD;
use sha2::{Digest, Sha256};
use std::alloc::{AllocError, Global};

const BEGIN: &[u8] = b"-----BEGIN CERTIFICATE-----";

const END: &[u8] = b"-----END CERTIFICATE-----";

/// The identity of the device whose certificate the text of a PEM file (RFC 7468, section 5.1) has: the SHA-256 (FIPS 180-4, section 6.2) of the
/// certificate in DER form, 32 bytes. The certificate is the Base64 (RFC 4648, section 4) between the line `-----BEGIN CERTIFICATE-----` and the
/// next line `-----END CERTIFICATE-----`; blanks, tabs and carriage returns at the end of a line don't count, and what else stands in the file is
/// not looked at. Fails with `NoCertificate` if no line begins a certificate, with `Several` if two or more do, with `Unended` if no end follows,
/// and with `NotBase64` if what stands between is not the Base64 of one byte or more. None of the first three needs memory; `OutOfMemory` comes only
/// where the certificate has its end. O(n) in time and memory, n being the text's length.
pub fn certificate_identity(alloc: Global, text: &[u8]) -> Result<[u8; 32], CertificateFault>
    ensures value { IfOk result (λ identity. IsCertificateIdentity text.now identity) }
    ensures found { (identity : List ℕ) → IsCertificateIdentity text.now identity → (result ≡ Ok identity) ⊎ (result ≡ Err OutOfMemory) }
    ensures fault { IfErr result (λ fault. HasFault text.now fault) }
    ensures no_certificate { HasFault text.now NoCertificate → result ≡ Err NoCertificate }
    ensures several { HasFault text.now Several → result ≡ Err Several }
    ensures unended { HasFault text.now Unended → result ≡ Err Unended }
    ensures not_base64 { HasFault text.now NotBase64 → (result ≡ Err NotBase64) ⊎ (result ≡ Err OutOfMemory) }
{
    let der = certificate(alloc, text)?;
    Ok(Sha256::digest(der.as_slice()))
}

// The certificate in DER form.
fn certificate(alloc: Global, text: &[u8]) -> Result<Vec<u8>, CertificateFault>
    ensures value { IfOk result (λ der. IsCertificate text.now der.items) }
    ensures fault { IfErr result (λ fault. HasFault text.now fault) }
{
    let lines = certificate_lines(text)?;
    let base64 = lines.until(alloc, END)?;
    decode(alloc, &base64)?.ok_or(CertificateFault::NotBase64)
}

// The lines after the begin, if there is one and its end follows.
fn certificate_lines(text: &[u8]) -> Result<Lines<'_>, CertificateFault>
    ensures value { IfOk result (λ lines. HasCertificate text.now × (lines_left lines ≡ lines_after_begin text.now)) }
    ensures fault { IfErr result (λ fault. HasFault text.now fault) }
{
    let Some(lines) = Lines::new(text).after(BEGIN) else {
        return Err(CertificateFault::NoCertificate);
    };
    if lines.after(BEGIN).is_some() {
        return Err(CertificateFault::Several);
    }
    if lines.after(END).is_none() {
        return Err(CertificateFault::Unended);
    }
    Ok(lines)
}

// The bytes of which the text is the Base64, if there are any.
fn decode(alloc: Global, base64: &[u8]) -> Result<Option<Vec<u8>>, AllocError>
    ensures { IfOk result (λ found. MatchOption found ((der : List ℕ) → IsBase64Of base64.now der → ⊥) (λ der. IsBase64Of base64.now der.items)) }
{
    match STANDARD.decode(alloc, base64) {
        Ok(der) if der.is_empty() => Ok(None),
        Ok(der) => Ok(Some(der)),
        Err(DecodeAllocError::DecodeError(_)) => Ok(None),
        Err(DecodeAllocError::OutOfMemory) => Err(AllocError),
    }
}
