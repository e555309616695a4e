// Names of bundles that ascend strictly, so that one of them is found by halving.
ghost use Rattle.addr_cab.specs.Searches.{Ascend};

use addr_base::Digest;

#[derive(Clone, Copy)]
pub struct Names<'a> {
    pub names: &'a [Digest],
    ghost ascend: { Ascend (λ d. d.0) names.now },
}
