//! The headline over trees, and what a certificate shows. The functions do nothing.
ghost use Rattle.hm_shortest.specs.Laws.{CertificatesShow, ShortestIsCertified};

/// The shortest text of a settled tree parses to it, is one of its spellings, and no spelling is shorter. The certificate can be
/// read, and it shows that by its prices alone.
pub fn shortest_is_certified()
    ensures { ShortestIsCertified }
{}

/// In each format, a certificate from any source shows that no spelling of a settled tree has fewer bytes than its first price.
pub fn certificates_show()
    ensures { CertificatesShow }
{}
