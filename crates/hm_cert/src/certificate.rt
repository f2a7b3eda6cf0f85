//! Reads a certificate.
ghost use Rattle.std.specs.Prelude.{◌≡◌, IfOk};
ghost use Rattle.hm_cert.specs.Certificate.{AreRows};
ghost use Rattle.hm_cert.specs.Reading.{ReadsAs};

use crate::kept::WrittenRows;
use crate::lines::{CertificateFault, read_head};
use hm_base::{Format, SpellRules};
use std::alloc::Global;

/// A certificate: its format, the rules that it was written under, and the prices of the layers that it has.
#[derive(Drop)]
pub struct Certificate<'a> {
    pub format: Format,
    pub rules: SpellRules,
    pub prices: WrittenRows<'a>,
}

impl<'a> Certificate<'a> {
    /// Reads the text of a certificate. Each line is checked. The prices are read from it again when they are needed.
    pub fn read(alloc: Global, bytes: &'a [u8]) -> Result<Certificate<'a>, CertificateFault>
        ensures read { ReadsAs bytes.now result }
        ensures rows { IfOk result (λ certificate. AreRows certificate.prices) }
    {
        let head = read_head(bytes)?;
        let prices = WrittenRows::read(alloc, head.lines)?;
        Ok(Certificate {
            format: head.format,
            rules: head.rules,
            prices,
        })
    }
}
