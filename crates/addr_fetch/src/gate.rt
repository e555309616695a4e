// What stands around each fetch, so that a test can hold one.
use addr_base::BundleNo;

/// Called before and after each fetch of a bundle. It may wait, and answers nothing.
pub trait Gate {
    fn before(&self, b: BundleNo);

    fn after(&self, b: BundleNo);
}

/// A gate that does nothing.
#[derive(Clone, Copy)]
pub struct OpenGate;

impl Gate for OpenGate {
    fn before(&self, _: BundleNo) {}

    fn after(&self, _: BundleNo) {}
}
